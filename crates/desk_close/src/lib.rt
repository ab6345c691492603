// The services Read and Close, by value.

#![tactic(auto)]

ghost use Rattle.desk_record.specs.Calls.{ChangeGives};
ghost use Rattle.desk_close.specs.Read.{read_of, ReadGives};
ghost use Rattle.desk_close.specs.Close.{close_of};

use answers::Refusal;
use desk_record::{After, Desk};

// The service Read: the served count of a job.
pub fn read(desk: Desk, handle: u64) -> Result<u32, Refusal>
    ensures { ReadGives (read_of handle desk) result }
{
    desk_record::handle_refusal(&desk, handle)?;
    let s = (handle % 8) as usize;
    let job = desk.jobs[s];
    Ok(job.served)
}

// The service Close.
pub fn close(desk: Desk, handle: u64) -> After<()>
    ensures { ChangeGives (close_of handle desk) result.desk result.answer }
{
    if let Err(e) = desk_record::handle_refusal(&desk, handle) {
        return After {
            desk,
            answer: Err(e),
        };
    }
    let s = (handle % 8) as usize;
    let mut d = desk;
    d.jobs[s] = desk_job::empty();
    After {
        desk: d,
        answer: Ok(()),
    }
}
