// The record of a gather: a word that comes in stretches. Its refusals, and the service Begin.

#![tactic(auto)]

ghost use Rattle.std.specs.Prelude.{◌≡◌};
ghost use Rattle.answers.specs.Answers.{refused_number};
ghost use Rattle.gather_record.specs.Record.{gather_refusal, begin_of, GatherGives};

use answers::Refusal;
use shape::{Bytes, Shape};

// A shape, whether it is finished, 1 or 0, the bytes that came, and for each place 0 if it came and 1 if it did not.
#[repr(C)]
#[derive(Clone, Copy)]
pub struct Gather {
    pub m: u8,
    pub w: u8,
    pub c: u8,
    pub finished: u8,
    pub bytes: [u8; Shape::MAX_PLACES],
    pub marks: [u8; Shape::MAX_PLACES],
}

// What Begin, Take and Finish answer, and the record then.
#[derive(Clone, Copy)]
pub struct After {
    pub gather: Gather,
    pub answer: Result<(), Refusal>,
}

// Refuses a record: as 1 to 4 or 6 if it is bad, as 22 if it is finished.
pub fn refusal(gather: Gather) -> Result<(), Refusal>
    ensures { refused_number result ≡ gather_refusal gather }
{
    let m = gather.m as usize;
    let w = gather.w as usize;
    let c = gather.c as usize;
    shape::shape_refusal::<Bytes>(m, w, c)?;
    let n = m * w;
    let marks = gather.marks;
    marks::marks_refusal::<Bytes>(m, w, c, &marks[..n])?;
    if 1 < gather.finished {
        return Err(Refusal::Mark);
    }
    if gather.finished == 1 {
        Err(Refusal::Finished)
    } else {
        Ok(())
    }
}

// The service Begin.
pub fn begin(gather: Gather, m: usize, w: usize, c: usize) -> After
    ensures { GatherGives (begin_of m w c gather) result.gather result.answer }
{
    if let Err(e) = shape::shape_refusal::<Bytes>(m, w, c) {
        return After {
            gather,
            answer: Err(e),
        };
    }
    let new = Gather {
        m: m as u8,
        w: w as u8,
        c: c as u8,
        finished: 0,
        bytes: [0; Shape::MAX_PLACES],
        marks: [1; Shape::MAX_PLACES],
    };
    After {
        gather: new,
        answer: Ok(()),
    }
}
