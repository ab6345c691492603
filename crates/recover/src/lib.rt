// The service Recover.

#![tactic(auto)]

ghost use Rattle.std.specs.Prelude.{◌≡◌, true, false, ◌+◌, ◌*◌, ◌≤◌, ◌<◌, length};
ghost use Rattle.shape.specs.Shapes.{byte_limits};
ghost use Rattle.answers.specs.Answers.{refused_number, mending_number};
ghost use Rattle.code.specs.Limits.{GoodIn};
ghost use Rattle.byte_edition.specs.Edition.{byte_edition};
ghost use Rattle.code.specs.Word.{is_local};
ghost use Rattle.code.specs.Marks.{lost_in, excess};
ghost use Rattle.syndrome.specs.Across.{across_of};
ghost use Rattle.code_engine.specs.Tests.{tested_in};
ghost use Rattle.code.specs.Stretch.{stretch};
ghost use Rattle.code_loops.specs.Broken.{FilledTested};
ghost use Rattle.code_services.specs.Answered.{AnswersBy};
ghost use Rattle.code_services.specs.Recover.{recover_refusal_in, recover_in};
ghost use Rattle.code_services.specs.Attempt.{FullSatisfiedIn, AttemptIn};

use answers::{Refusal, Tested};
use shape::Bytes;
use syndrome::Sums;

// Refuses a call by its shape, its lengths and its marks, as 1 to 6.
pub fn refusal(m: usize, w: usize, c: usize, word: &[u8], marks: &[u8]) -> Result<(), Refusal>
    ensures { refused_number result ≡ recover_refusal_in byte_limits m w c word.now marks.now }
{
    shape::word_refusal::<Bytes>(m, w, c, word.len())?;
    marks::beside_refusal(marks, word.len())
}

// Whether the first c local sums of one group's stretch are zero, given that filling it with these marks has already made as many of them zero as
// there are lost places. If c or more places are lost, nothing remains to be tested.
pub fn filled_zero(marks: &[u8], part: &[u8], c: usize) -> bool
    ensures few { lost_in (length marks.now) marks.now 0 < c → length part.now ≤ 16 → c ≤ 4 → result ≡ is_local byte_edition (length part.now) c part.now 0 }
    ensures many { c ≤ lost_in (length marks.now) marks.now 0 → result ≡ true }
    ensures other { lost_in (length marks.now) marks.now 0 < c → (length part.now ≤ 16 → c ≤ 4 → ⊥) → result ≡ false }
{
    if marks::lost_in(marks) < c {
        return syndrome::local_zero(part, c);
    }
    true
}

// The test of the equations of a word in which the groups with c or more lost places are satisfied, with its sums across.
fn test(m: usize, w: usize, c: usize, marks: &[u8], word: &[u8], s: Sums) -> Tested
    requires good_in { GoodIn byte_limits m w c }
    requires marks_len { length marks.now ≡ m * w }
    requires word_len { length word.now ≡ m * w }
    requires full_satisfied_in { FullSatisfiedIn byte_edition m w c marks.now word.now }
    requires s_value { s ≡ across_of m w c word.now }
    ensures { result ≡ tested_in byte_edition m w c word.now }
{
    let is_sound = |g| -> bool
        requires { (g * w + w ≤ length marks.now) × (g * w + w ≤ length word.now) }
        ensures { FilledTested byte_edition c (stretch w g marks.entry.now) (stretch w g word.entry.now) result }
    { filled_zero(&marks[g * w..g * w + w], &word[g * w..g * w + w], c) };
    Tested::by(m, is_sound, || s.first == 0 && s.second == 0)
}

// Writes the candidate, made in found, into the word if it is a codeword; else it names the group that contradicts.
fn attempt(m: usize, w: usize, c: usize, word: &mut [u8], marks: &[u8], found: &mut [u8]) -> Tested
    requires good_in { GoodIn byte_limits m w c }
    requires word_len { length word.old ≡ m * w }
    requires marks_len { length marks.now ≡ m * w }
    requires found_len { length found.old ≡ m * w }
    ensures { AttemptIn byte_edition m w c marks.now word.old word.new result }
{
    let s = candidate::candidate(m, w, c, word, marks, found);
    let tested = test(m, w, c, marks, found, s);
    if !tested.codeword {
        return tested;
    }
    let end = word.len();
    buffers::copy(&found[..end], &mut word[..end]);
    tested
}

// What comes after the test of the excess: the codeword that agrees is written and all marks are cleared, or it answers 9 with the group that contradicts and changes nothing.
pub fn recover_determined(
    m: usize,
    w: usize,
    c: usize,
    word: &mut [u8],
    marks: &mut [u8],
) -> Result<(), Refusal>
    requires marks_value { recover_refusal_in byte_limits m w c word.old marks.old ≡ 0 }
    requires marks_bound { excess m w c marks.old ≤ 2 }
    ensures answer { AnswersBy result (recover_in byte_edition m w c word.old marks.old) }
    ensures word { word.new ≡ (recover_in byte_edition m w c word.old marks.old).word }
    ensures marks { marks.new ≡ (recover_in byte_edition m w c word.old marks.old).marks }
    ensures never_eight { mending_number result ≡ 8 → ⊥ }
{
    let n = word.len();
    let mut found = [0u8; 240];
    let tested = attempt(m, w, c, word, marks, &mut found[..n]);
    let done = tested.codeword;
    buffers::clear_if(done, marks);
    if !done {
        return Err(Refusal::Contradictory(tested.group as u8));
    }
    Ok(())
}

// Recovers the whole word from its present bytes, or refuses and changes nothing.
pub fn recover(
    m: usize,
    w: usize,
    c: usize,
    word: &mut [u8],
    marks: &mut [u8],
) -> Result<(), Refusal>
    ensures answer { AnswersBy result (recover_in byte_edition m w c word.old marks.old) }
    ensures word { word.new ≡ (recover_in byte_edition m w c word.old marks.old).word }
    ensures marks { marks.new ≡ (recover_in byte_edition m w c word.old marks.old).marks }
{
    refusal(m, w, c, word, marks)?;
    if 2 < marks::pattern_excess(w, c, marks) {
        return Err(Refusal::Undetermined);
    }
    recover_determined(m, w, c, word, marks)
}
