// The service Take, by value.

#![tactic(auto)]

ghost use Rattle.std.specs.Prelude.{◌≡◌, ◌↔◌, ◌<◌, ℕ, IsTrue, length, get_or};
ghost use Rattle.answers.specs.Answers.{refused_number};
ghost use Rattle.gather_record.specs.Record.{GatherGives};
ghost use Rattle.gather_take.specs.Take.{take_refusal, take_of};

use answers::Refusal;
use gather_record::{After, Gather};

// Whether some place of a stretch came before, by the marks of that stretch.
fn some_came(part: &[u8]) -> bool
    ensures { IsTrue result ↔ ((p : ℕ) × (p < length part.now) × ¬ (get_or part.now p 0 ≡ 1)) }
{
    part.iter().any(|mark| *mark != 1)
}

// Refuses a stretch of count bytes: as the record, or as 23 or 24. Both numbers are compared with n before they are added.
fn take_refusal(gather: Gather, first: usize, count: usize) -> Result<(), Refusal>
    ensures { refused_number result ≡ take_refusal first count gather }
{
    gather_record::refusal(gather)?;
    let n = (gather.m as usize) * (gather.w as usize);
    if n < first {
        return Err(Refusal::Beyond);
    }
    if n < count {
        return Err(Refusal::Beyond);
    }
    let end = first + count;
    if n < end {
        return Err(Refusal::Beyond);
    }
    let marks = gather.marks;
    if some_came(&marks[first..end]) {
        Err(Refusal::CameBefore)
    } else {
        Ok(())
    }
}

// The service Take.
pub fn take(gather: Gather, first: usize, bytes: &[u8]) -> After
    ensures { GatherGives (take_of first bytes.now gather) result.gather result.answer }
{
    let count = bytes.len();
    if let Err(e) = take_refusal(gather, first, count) {
        return After {
            gather,
            answer: Err(e),
        };
    }
    let end = first + count;
    let mut kept = gather.bytes;
    buffers::copy_from_slice(&mut kept[first..end], bytes);
    let mut marks = gather.marks;
    marks[first..end].fill(0);
    After {
        gather: Gather {
            bytes: kept,
            marks,
            ..gather
        },
        answer: Ok(()),
    }
}
