// The service Repair: one group, by its own equations.

#![tactic(auto)]

ghost use Rattle.std.specs.Prelude.{◌≡◌, ◌≤◌, ◌<◌, length};
ghost use Rattle.byte_edition.specs.Edition.{byte_edition};
ghost use Rattle.code.specs.Marks.{lost_in};
ghost use Rattle.code.specs.Repair.{repaired};
ghost use Rattle.code_services.specs.Answered.{AnswersBy};
ghost use Rattle.code_services.specs.Repair.{repair_in, PartAttemptIn};

use answers::Refusal;

// Fills the lost places of a stretch in found, and writes it into the stretch if it satisfies all of the group's equations.
fn attempt(c: usize, part: &mut [u8], marks: &[u8], found: &mut [u8]) -> bool
    requires part_nonzero { 0 < length part.old }
    requires part_len_bound { length part.old ≤ 16 }
    requires c_bound { c ≤ 4 }
    requires marks_len { length marks.now ≡ length part.old }
    requires found_len { length found.old ≡ length part.old }
    requires marks_bound { lost_in (length part.old) marks.now 0 ≤ c }
    ensures { PartAttemptIn byte_edition (length part.old) c marks.now part.old part.new result }
{
    buffers::copy(part, found);
    fill::fill(found, marks);
    if !recover::filled_zero(marks, found, c) {
        return false;
    }
    buffers::copy(found, part);
    true
}

// Repairs the stretch of group g of the word and the marks; answers done, 8, or 9 with its own group, and changes nothing unless it is done.
fn repair_part(c: usize, g: usize, part: &mut [u8], marks: &mut [u8]) -> Result<(), Refusal>
    requires part_nonzero { 0 < length part.old }
    requires part_len_bound { length part.old ≤ 16 }
    requires c_bound { c ≤ 4 }
    requires marks_len { length marks.old ≡ length part.old }
    requires g_bound { g < 256 }
    ensures answers_by { AnswersBy result (repaired byte_edition (length part.old) c g part.old marks.old) }
    ensures part_after { part.new ≡ (repaired byte_edition (length part.old) c g part.old marks.old).word }
    ensures marks_after { marks.new ≡ (repaired byte_edition (length part.old) c g part.old marks.old).marks }
{
    if c < marks::lost_in(marks) {
        return Err(Refusal::Undetermined);
    }
    let w = part.len();
    let mut found = [0u8; 16];
    let done = attempt(c, part, marks, &mut found[..w]);
    buffers::clear_if(done, marks);
    if !done {
        return Err(Refusal::Contradictory(g as u8));
    }
    Ok(())
}

// Repairs group g of the word, or refuses and changes nothing.
pub fn repair(
    m: usize,
    w: usize,
    c: usize,
    g: usize,
    word: &mut [u8],
    marks: &mut [u8],
) -> Result<(), Refusal>
    ensures answer { AnswersBy result (repair_in byte_edition m w c g word.old marks.old) }
    ensures word { word.new ≡ (repair_in byte_edition m w c g word.old marks.old).word }
    ensures marks { marks.new ≡ (repair_in byte_edition m w c g word.old marks.old).marks }
{
    recover::refusal(m, w, c, word, marks)?;
    if m <= g {
        return Err(Refusal::GroupNumber);
    }
    let a = g * w;
    let e = a + w;
    repair_part(c, g, &mut word[a..e], &mut marks[a..e])
}
