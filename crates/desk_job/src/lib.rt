// A job of a desk, its figures worked from its marks, and whether it is sound.

#![tactic(auto)]

ghost use Rattle.std.specs.Prelude.{◌≡◌, true, ◌*◌, length, replicate};
ghost use Rattle.shape.specs.Shapes.{byte_limits};
ghost use Rattle.code.specs.Limits.{GoodIn};
ghost use Rattle.answers.specs.Answers.{refused_number};
ghost use Rattle.code_services.specs.Judge.{judged_number_in};
ghost use Rattle.desk_job.specs.Figures.{loss_figures};
ghost use Rattle.desk_job.specs.Jobs.{empty_job, is_good, has_figures, is_sound_job};

use answers::Refusal;
use shape::{Bytes, Shape};

// A slot of the desk: a shape, the marks of a loss pattern, how many words were served, and the handle. Taken is 1, or 0 for a free slot.
// The figures of the marks stand beside them: each group's lost count, and the excess.
#[repr(C)]
#[derive(Clone, Copy)]
pub struct Job {
    pub taken: u8,
    pub m: u8,
    pub w: u8,
    pub c: u8,
    pub served: u32,
    pub handle: u64,
    pub marks: [u8; Shape::MAX_PLACES],
    pub lost: [u8; Shape::MAX_GROUPS],
    pub excess: u8,
}

impl Job {
    // The end of the served count.
    pub const MAX_SERVED: u32 = 4294967295;
}

// The figures of a loss pattern: each group's lost count, 0 past the last group, and the excess.
#[derive(Clone, Copy)]
pub struct Figures {
    pub lost: [u8; Shape::MAX_GROUPS],
    pub excess: usize,
}

// A slot with all its fields zero.
#[tactic(auto, unfolding(crate::specs::Jobs::empty_job))]
pub fn empty() -> Job
    ensures { result ≡ empty_job }
{
    Job {
        taken: 0,
        m: 0,
        w: 0,
        c: 0,
        served: 0,
        handle: 0,
        marks: [0; Shape::MAX_PLACES],
        lost: [0; Shape::MAX_GROUPS],
        excess: 0,
    }
}

// What Judge gives.
pub fn judged(m: usize, w: usize, c: usize, marks: &[u8]) -> Result<(), Refusal>
    ensures { refused_number result ≡ judged_number_in byte_limits m w c marks.now }
{
    judge::judge::<Bytes>(m, w, c, marks)
}

// Whether a job's shape is good and its n marks are 0 or 1 with excess at most 2.
pub fn is_good(job: Job) -> bool
    ensures { result ≡ is_good job }
{
    let m = job.m as usize;
    let w = job.w as usize;
    let c = job.c as usize;
    let n = m * w;
    if Shape::MAX_PLACES < n {
        return false;
    }
    let marks = job.marks;
    judged(m, w, c, &marks[..n]).is_ok()
}

// The figures of the marks of a good shape. A shape that is not good, or marks of another length, have none.
pub fn figures_of(m: usize, w: usize, c: usize, marks: &[u8]) -> Figures
    ensures value { GoodIn byte_limits m w c → length marks.now ≡ m * w → result ≡ loss_figures m w c marks.now }
    ensures value_2 { (GoodIn byte_limits m w c → length marks.now ≡ m * w → ⊥) → result ≡ record { lost = replicate 15 0; excess = 0 } }
{
    let mut lost = [0u8; Shape::MAX_GROUPS];
    let mut excess: usize = 0;
    if shape::word_refusal::<Bytes>(m, w, c, marks.len()).is_err() {
        return Figures { lost, excess };
    }
    for g in 0..m {
        let a = g * w;
        let l = marks::lost_in(&marks[a..a + w]);
        lost[g] = l as u8;
        excess += l.saturating_sub(c);
    }
    Figures { lost, excess }
}

// Whether the figures of a good job are those worked from its marks.
fn has_figures(job: Job) -> bool
    requires { is_good job ≡ true }
    ensures { result ≡ has_figures job }
{
    let m = job.m as usize;
    let w = job.w as usize;
    let c = job.c as usize;
    let n = m * w;
    let marks = job.marks;
    let worked = figures_of(m, w, c, &marks[..n]);
    worked.excess == job.excess as usize && job.lost == worked.lost
}

// Whether a job is good and its figures are those worked from its marks.
#[tactic(auto, unfolding(crate::specs::Jobs::is_sound_job))]
pub fn is_sound_job(job: Job) -> bool
    ensures { result ≡ is_sound_job job }
{
    is_good(job) && has_figures(job)
}
