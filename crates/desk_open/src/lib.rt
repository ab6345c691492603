// The service Open, by value.

#![tactic(auto)]

ghost use Rattle.std.specs.Prelude.{◌≡◌, ◌++◌, ◌-◌, ◌≤◌, IfOk, not, length, replicate};
ghost use Rattle.std.specs.List.{position};
ghost use Rattle.desk_job.specs.Jobs.{is_taken};
ghost use Rattle.answers.specs.Answers.{refused_number};
ghost use Rattle.desk_open.specs.Open.{free_slot, open_number, open_of, OpenGives};

use answers::Refusal;
use desk_job::Job;
use desk_record::{After, Desk};
use shape::Shape;

// The lowest free slot, if there is one.
fn free_slot(desk: &Desk) -> Option<usize>
    ensures { result ≡ position (λ job. not (is_taken job)) desk.now.jobs }
{
    desk.jobs.iter().position(|job| job.taken != 1)
}

// A copy of the marks, with 0 past them.
fn kept(marks: &[u8]) -> [u8; Shape::MAX_PLACES]
    requires { length marks.now ≤ 240 }
    ensures { result ≡ marks.now ++ replicate (240 - length marks.now) 0 }
{
    let mut copy = [0u8; Shape::MAX_PLACES];
    buffers::copy_from_slice(&mut copy[..marks.len()], marks);
    copy
}

// The slot that Open takes, or the number by which it refuses.
fn open_slot(desk: Desk, m: usize, w: usize, c: usize, marks: &[u8]) -> Result<usize, Refusal>
    ensures number { refused_number result ≡ open_number m w c marks.now desk }
    ensures slot { IfOk result (λ s. s ≡ free_slot desk) }
{
    if !desk_record::is_sound(&desk) {
        return Err(Refusal::Unsound);
    }
    desk_job::judged(m, w, c, marks)?;
    if desk.t == Desk::MAX_ISSUED {
        return Err(Refusal::AllIssued);
    }
    free_slot(&desk).ok_or(Refusal::DeskFull)
}

// The service Open. The desk is changed in place: a second one was cleared and filled at each call, which took 1.4 times the instructions.
pub fn open(mut desk: Desk, m: usize, w: usize, c: usize, marks: &[u8]) -> After<u64>
    ensures { OpenGives (open_of m w c marks.now desk) result.desk result.answer }
{
    let s = match open_slot(desk, m, w, c, marks) {
        Ok(s) => s,
        Err(e) => {
            return After {
                desk,
                answer: Err(e),
            };
        }
    };
    let t = desk.t + 1;
    let handle = 8 * t + (s as u64);
    let marks_kept = kept(marks);
    let worked = desk_job::figures_of(m, w, c, marks);
    let lost = worked.lost;
    desk.jobs[s] = Job {
        taken: 1,
        m: m as u8,
        w: w as u8,
        c: c as u8,
        served: 0,
        handle,
        marks: marks_kept,
        lost,
        excess: worked.excess as u8,
    };
    desk.t = t;
    After {
        desk,
        answer: Ok(handle),
    }
}
