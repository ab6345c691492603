// Marks of lost places: their refusal, the count of one group and the excess of a whole pattern.

#![tactic(auto)]

ghost use Rattle.std.specs.Prelude.{◌≡◌, not, ◌-◌, ◌*◌, ◌/◌, ◌≤◌, min, eqb, length};
ghost use Rattle.shape.specs.Shapes.{byte_limits};
ghost use Rattle.code.specs.Marks.{lost_in, excess};
ghost use Rattle.code.specs.Limits.{GoodIn};
ghost use Rattle.code.specs.Refusals.{refuse, ◌or_else◌};
ghost use Rattle.code_services.specs.Marks.{are_marks, marks_refusal_in};
ghost use Rattle.answers.specs.Answers.{refused_number};

use answers::Refusal;
use shape::{Bytes, Edition};

// Whether every mark is 0 or 1. Computes the largest of all marks: a loop without an early exit is fast.
pub fn are_marks(marks: &[u8]) -> bool
    ensures { result ≡ are_marks marks.now }
{
    let mut most: u8 = 0;
    for mark in marks {
        most = most.max(*mark);
    }
    most <= 1
}

// Refuses as 1 to 4, 26, 5 and 6, for a service that is lent marks.
pub fn marks_refusal<E: Edition>(m: usize, w: usize, c: usize, marks: &[u8]) -> Result<(), Refusal>
    ensures { refused_number result ≡ marks_refusal_in E.limits m w c marks.now }
{
    shape::shape_refusal::<E>(m, w, c)?;
    beside_refusal(marks, m * w)
}

// Refuses marks that are lent beside a word of n places: as 5 if they are not as many, as 6 if one is neither 0 nor 1.
pub fn beside_refusal(marks: &[u8], n: usize) -> Result<(), Refusal>
    ensures { refused_number result ≡ refuse 5 (not (eqb (length marks.now) n)) or_else refuse 6 (not (are_marks marks.now)) }
{
    if marks.len() != n {
        return Err(Refusal::Length);
    }
    if are_marks(marks) {
        Ok(())
    } else {
        Err(Refusal::Mark)
    }
}

// How many of at most sixteen places are lost. They are counted in a byte: sixteen bytes are one step of the vector unit.
fn few_lost(part: &[u8]) -> u8
    requires { length part.now ≤ 16 }
    ensures { result ≡ lost_in (length part.now) part.now 0 }
{
    let mut n: u8 = 0;
    for mark in part {
        n += u8::from(*mark == 1);
    }
    n
}

// How many places of one group's stretch are lost.
pub fn lost_in(part: &[u8]) -> usize
    ensures { result ≡ lost_in (length part.now) part.now 0 }
{
    if part.len() <= 16 {
        return usize::from(few_lost(part));
    }
    let mut n: usize = 0;
    for mark in part {
        n += usize::from(*mark == 1);
    }
    n
}

// l less c, or 0 if that is negative.
pub fn less(l: usize, c: usize) -> usize
    ensures { result ≡ l - c }
{
    l.saturating_sub(c)
}

// The excess of a pattern: the lost places less those that each group of w places can fill by its own c checks.
// Groups that are whole count, and a width of 0 has none.
pub fn pattern_excess(w: usize, c: usize, marks: &[u8]) -> usize
    ensures { result ≡ excess (length marks.now / w) w c marks.now }
{
    if w == 0 {
        return 0;
    }
    let mut lost: usize = 0;
    let mut own: usize = 0;
    for group in marks.chunks_exact(w) {
        let l = lost_in(group);
        lost += l;
        own += l.min(c);
    }
    less(lost, own)
}

// The excess of the marks of a good shape. A shape that is not good, or marks of another length, have none.
pub fn excess_of(m: usize, w: usize, c: usize, marks: &[u8]) -> usize
    ensures value { GoodIn byte_limits m w c → length marks.now ≡ m * w → result ≡ excess m w c marks.now }
    ensures value_2 { (GoodIn byte_limits m w c → length marks.now ≡ m * w → ⊥) → result ≡ 0 }
{
    if shape::word_refusal::<Bytes>(m, w, c, marks.len()).is_err() {
        return 0;
    }
    pattern_excess(w, c, marks)
}
