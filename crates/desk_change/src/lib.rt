// The services Lose and Find, by value: a place of an open job is lost, or found again.

#![tactic(auto)]

ghost use Rattle.std.specs.Prelude.{◌≡◌, true, ◌*◌, ◌<◌};
ghost use Rattle.answers.specs.Answers.{refused_number};
ghost use Rattle.desk_job.specs.Jobs.{is_sound_job};
ghost use Rattle.desk_record.specs.Calls.{ChangeGives};
ghost use Rattle.desk_change.specs.Change.{changed, place_refusal, lose_of, find_of};

use answers::Refusal;
use desk_job::Job;
use desk_record::{After, Desk};

// The job with the mark of a place set, 1 for lost or 0 for found, and with it its group's count and the excess.
fn with_mark(job: Job, place: usize, mark: u8) -> Job
    requires { (is_sound_job job ≡ true) × (place < job.m * job.w) × (mark < 2) }
    ensures { result ≡ changed mark place job }
{
    let mut marks = job.marks;
    if marks[place] == mark {
        return job;
    }
    marks[place] = mark;
    let mut lost = job.lost;
    let mut excess = job.excess;
    let g = place / (job.w as usize);
    // its group's count with the place lost, and what the place adds to the excess then
    let count = lost[g] + mark;
    let more = u8::from(job.c < count);
    if mark == 1 {
        lost[g] = count;
        excess += more;
    } else {
        lost[g] = count - 1;
        excess -= more;
    }
    Job {
        marks,
        lost,
        excess,
        ..job
    }
}

// Refuses a call with a handle and a place, as 31, 12 or 25.
fn place_refusal(desk: Desk, handle: u64, place: usize) -> Result<(), Refusal>
    ensures { refused_number result ≡ place_refusal handle place desk }
{
    desk_record::handle_refusal(&desk, handle)?;
    let s = (handle % 8) as usize;
    let job = desk.jobs[s];
    let n = (job.m as usize) * (job.w as usize);
    if n <= place {
        Err(Refusal::Place)
    } else {
        Ok(())
    }
}

// The service Lose.
pub fn lose(desk: Desk, handle: u64, place: usize) -> After<()>
    ensures { ChangeGives (lose_of handle place desk) result.desk result.answer }
{
    if let Err(e) = place_refusal(desk, handle, place) {
        return After {
            desk,
            answer: Err(e),
        };
    }
    let s = (handle % 8) as usize;
    let mut d = desk;
    let job = d.jobs[s];
    let then = with_mark(job, place, 1);
    if 2 < then.excess {
        return After {
            desk: d,
            answer: Err(Refusal::Undetermined),
        };
    }
    d.jobs[s] = then;
    After {
        desk: d,
        answer: Ok(()),
    }
}

// The service Find. It can't meet 8, since the excess of fewer losses is no larger.
pub fn find(desk: Desk, handle: u64, place: usize) -> After<()>
    ensures { ChangeGives (find_of handle place desk) result.desk result.answer }
{
    if let Err(e) = place_refusal(desk, handle, place) {
        return After {
            desk,
            answer: Err(e),
        };
    }
    let s = (handle % 8) as usize;
    let mut d = desk;
    let job = d.jobs[s];
    let then = with_mark(job, place, 0);
    d.jobs[s] = then;
    After {
        desk: d,
        answer: Ok(()),
    }
}
