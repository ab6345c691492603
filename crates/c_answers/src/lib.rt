// What an answer gives to C: its number, its figures, and the group that a 9 carries. Both editions use it.

#![tactic(auto)]

ghost use Rattle.std.specs.Prelude.{◌≡◌, get_or};
ghost use Rattle.answers.specs.Answers.{answer_number};
ghost use Rattle.c_answers.specs.Mends.{mending_mended};
ghost use Rattle.answers.specs.Figures.{described_number, described_figures, judged_number};
ghost use Rattle.c_answers.specs.Numbers.{checked_mended};

use answers::{Figures, Refusal};

// What Check, Repair, Recover, Serve, Edit and a gather's Finish give to C: the number, 0 for done, and the group that a 9 carries; 0 with any other number.
#[repr(C)]
#[derive(Clone, Copy, Debug, PartialEq, Eq)]
pub struct Mended {
    pub number: u8,
    pub group: u8,
}

// The number of an answer.
pub fn number(answer: Result<(), Refusal>) -> u8
    ensures { result ≡ answer_number answer }
{
    match answer {
        Ok(()) => 0,
        Err(refusal) => refusal.number(),
    }
}

// The number of what a service that mends answers, and the group that a 9 carries; 0 with any other number.
pub fn mended_of(answer: Result<(), Refusal>) -> Mended
    ensures { result ≡ mending_mended answer }
{
    let group = match answer {
        Err(Refusal::Contradictory(g)) => g,
        _ => 0,
    };
    Mended {
        number: number(answer),
        group,
    }
}

// The number of a judgement.
pub fn judged_number(judged: Result<(), Refusal>) -> u8
    ensures { result ≡ judged_number judged }
{
    number(judged)
}

// The number of a check, 0 for a codeword and 9 for another word, and the group that the 9 carries.
pub fn mended_of_check(checked: Result<Option<u8>, Refusal>) -> Mended
    ensures { result ≡ checked_mended checked }
{
    match checked {
        Ok(None) => mended_of(Ok(())),
        Ok(Some(broken)) => mended_of(Err(Refusal::Contradictory(broken))),
        Err(e) => mended_of(Err(e)),
    }
}

// The number of a description.
pub fn described_number(described: Result<Figures, Refusal>) -> u8
    ensures { result ≡ described_number described }
{
    match described {
        Ok(_) => 0,
        Err(e) => e.number(),
    }
}

// Its first figure, the places of a word; 0 if it is refused.
pub fn described_places(described: Result<Figures, Refusal>) -> usize
    ensures { result ≡ get_or (described_figures described) 0 0 }
{
    match described {
        Ok(f) => f.n,
        Err(_) => 0,
    }
}

// Its second figure, the symbols of data.
pub fn described_data(described: Result<Figures, Refusal>) -> usize
    ensures { result ≡ get_or (described_figures described) 1 0 }
{
    match described {
        Ok(f) => f.k,
        Err(_) => 0,
    }
}

// Its third figure, the sure count.
pub fn described_sure(described: Result<Figures, Refusal>) -> usize
    ensures { result ≡ get_or (described_figures described) 2 0 }
{
    match described {
        Ok(f) => f.sure,
        Err(_) => 0,
    }
}
