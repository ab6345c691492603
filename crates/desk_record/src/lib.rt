// The record of a desk of eight recovery jobs: Fresh, whether a desk is sound, and whether a handle is open.

#![tactic(auto)]

ghost use Rattle.std.specs.Prelude.{◌≡◌, cond, not, ◌&&◌, ◌<◌, eqb, get_or};
ghost use Rattle.answers.specs.Answers.{refused_number};
ghost use Rattle.counting.specs.Test.{any_below};
ghost use Rattle.desk_job.specs.Jobs.{is_taken};
ghost use Rattle.desk_record.specs.Desks.{fresh_desk, issue_of, is_issued, is_sound_slot, is_sound, is_open};
ghost use Rattle.desk_record.specs.Refusal.{sound_refusal, handle_refusal};

use answers::Refusal;
use desk_job::Job;

// Eight jobs in a fixed row, and the count t of handles issued.
#[repr(C)]
#[derive(Clone, Copy)]
pub struct Desk {
    pub t: u64,
    pub jobs: [Job; 8],
}

impl Desk {
    // The end of the count t of handles issued.
    pub const MAX_ISSUED: u64 = 65535;
}

// What a call answers, done with its figure or refused, and the desk then. Open's figure is a handle; Serve, Close, Lose and Find have none.
#[derive(Clone, Copy)]
pub struct After<X> {
    pub desk: Desk,
    pub answer: Result<X, Refusal>,
}

// The service Fresh.
#[tactic(auto, unfolding(crate::specs::Desks::fresh_desk))]
pub fn fresh() -> Desk
    ensures { result ≡ fresh_desk }
{
    Desk {
        t: 0,
        jobs: [desk_job::empty(); 8],
    }
}

// Whether u is an issue number, from 1 to t.
#[tactic(auto, unfolding(crate::specs::Desks::is_issued))]
fn is_issued(t: u64, u: u64) -> bool
    ensures { result ≡ is_issued t u }
{
    1 <= u && u <= t
}

// Whether slot s is free, or taken by a sound job with a handle 8u+s, u from 1 to t.
#[tactic(auto, unfolding(crate::specs::Desks::is_sound_slot))]
fn is_sound_slot(t: u64, s: usize, job: Job) -> bool
    ensures { result ≡ is_sound_slot t s job }
{
    job.taken == 0
        || job.taken == 1
            && desk_job::is_sound_job(job)
            && job.handle % 8 == s as u64
            && is_issued(t, job.handle / 8)
}

// The issue number under which a slot is taken; 0 if it is not taken.
fn issue_in(job: Job) -> u64
    ensures { result ≡ cond (is_taken job) (issue_of job.handle) 0 }
{
    if job.taken != 1 {
        return 0;
    }
    job.handle / 8
}

// Whether the issue number of slot s is not 0 and stands in a lower slot too.
// Compared one by one: a slice needs a copy of the row in memory, which waits for the number just written, and a call took up to 1.4 times as long.
fn is_twice(issues: [u64; 8], s: usize) -> bool
    requires { s < 8 }
    ensures { result ≡ not (eqb (get_or issues s 0) 0) && any_below s (λ k. eqb (get_or issues k 0) (get_or issues s 0)) }
{
    let u = issues[s];
    let mut twice = false;
    for r in 0..s {
        if issues[r] == u {
            twice = true;
        }
    }
    u != 0 && twice
}

// Whether a desk is sound. Slot 0, which has no lower one, is tested before the loop, so that the test of a slot keeps a stack frame of its own.
pub fn is_sound(desk: &Desk) -> bool
    ensures { result ≡ is_sound desk.now }
{
    let t = desk.t;
    if Desk::MAX_ISSUED < t {
        return false;
    }
    let first = desk.jobs[0];
    if !is_sound_slot(t, 0, first) {
        return false;
    }
    let mut issues = [0u64; 8];
    issues[0] = issue_in(first);
    for s in 1..8 {
        let job = desk.jobs[s];
        if !is_sound_slot(t, s, job) {
            return false;
        }
        issues[s] = issue_in(job);
        if is_twice(issues, s) {
            return false;
        }
    }
    true
}

// Whether a handle is open. Its issue number is tested and its slot taken out of it before the row is indexed.
#[tactic(auto, unfolding(crate::specs::Desks::is_open))]
fn is_open(desk: &Desk, handle: u64) -> bool
    ensures { result ≡ is_open desk.now handle }
{
    if !is_issued(desk.t, handle / 8) {
        return false;
    }
    let s = (handle % 8) as usize;
    let job = desk.jobs[s];
    job.taken == 1 && job.handle == handle
}

// Refuses a desk that is not sound, as 31.
fn sound_refusal(desk: &Desk) -> Result<(), Refusal>
    ensures { refused_number result ≡ sound_refusal desk.now }
{
    if is_sound(desk) {
        Ok(())
    } else {
        Err(Refusal::Unsound)
    }
}

// Refuses a call with a handle, in this order: as 31 if the desk is not sound, as 12 if the handle is not open.
pub fn handle_refusal(desk: &Desk, handle: u64) -> Result<(), Refusal>
    ensures { refused_number result ≡ handle_refusal handle desk.now }
{
    let open = is_open(desk, handle);
    sound_refusal(desk)?;
    if open { Ok(()) } else { Err(Refusal::NotOpen) }
}
