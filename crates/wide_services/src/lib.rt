// The services Repair, Check and Encode of the sixteen-bit edition, and a list of repairs before a recovery.

#![tactic(auto)]

ghost use Rattle.std.specs.Prelude.{◌≡◌, ◌≤◌, ◌<◌, length};
ghost use Rattle.wide_shape.specs.Edition.{wide_edition, wide_limits};
ghost use Rattle.answers.specs.Answers.{refused_number, answer_number};
ghost use Rattle.code.specs.Marks.{lost_in};
ghost use Rattle.code.specs.Repair.{repaired};
ghost use Rattle.code_services.specs.Answered.{AnswersBy};
ghost use Rattle.code_services.specs.Repair.{PartAttemptIn, repair_in};
ghost use Rattle.code.specs.Limits.{word_refusal_in, place_count, GoodIn};
ghost use Rattle.code_services.specs.Check.{checked_in, check_figures_in};
ghost use Rattle.answers.specs.Figures.{checked_number, checked_figures};
ghost use Rattle.code_services.specs.Places.{check_marks};
ghost use Rattle.code_services.specs.Recover.{recover_in};
ghost use Rattle.code_services.specs.Encode.{encode_refusal_in, encode_in, encoded_buffer_in};
ghost use Rattle.code_services.specs.RepairOrder.{held, held_after_list, recover_after};

use answers::Refusal;
use wide_shape::Wide;

// Fills the lost places of a stretch in found, and writes it into the stretch if it satisfies all of the group's equations.
fn attempt(c: usize, part: &mut [u16], marks: &[u8], found: &mut [u16]) -> bool
    requires part_nonzero { 0 < length part.old }
    requires part_len_bound { length part.old ≤ 256 }
    requires c_bound { c ≤ 4 }
    requires marks_len { length marks.now ≡ length part.old }
    requires found_len { length found.old ≡ length part.old }
    requires marks_bound { lost_in (length part.old) marks.now 0 ≤ c }
    ensures { PartAttemptIn wide_edition (length part.old) c marks.now part.old part.new result }
{
    buffers::copy(part, found);
    wide_solve::fill(found, marks);
    if !wide_recover::filled_zero(marks, found, c) {
        return false;
    }
    buffers::copy(found, part);
    true
}

// Repairs the stretch of group g of the word and the marks; answers done, 8, or 9 with its own group, and changes nothing unless it is done.
fn repair_part(c: usize, g: usize, part: &mut [u16], marks: &mut [u8]) -> Result<(), Refusal>
    requires part_nonzero { 0 < length part.old }
    requires part_len_bound { length part.old ≤ 256 }
    requires c_bound { c ≤ 4 }
    requires marks_len { length marks.old ≡ length part.old }
    requires g_bound { g < 256 }
    ensures answers_by { AnswersBy result (repaired wide_edition (length part.old) c g part.old marks.old) }
    ensures part_after { part.new ≡ (repaired wide_edition (length part.old) c g part.old marks.old).word }
    ensures marks_after { marks.new ≡ (repaired wide_edition (length part.old) c g part.old marks.old).marks }
{
    if c < marks::lost_in(marks) {
        return Err(Refusal::Undetermined);
    }
    let w = part.len();
    let mut found = [0u16; 256];
    let done = attempt(c, part, marks, &mut found[..w]);
    buffers::clear_if(done, marks);
    if !done {
        return Err(Refusal::Contradictory(g as u8));
    }
    Ok(())
}

// Repairs group g of the word, or refuses and changes nothing.
pub fn repair(
    m: usize,
    w: usize,
    c: usize,
    g: usize,
    word: &mut [u16],
    marks: &mut [u8],
) -> Result<(), Refusal>
    ensures answer { AnswersBy result (repair_in wide_edition m w c g word.old marks.old) }
    ensures word { word.new ≡ (repair_in wide_edition m w c g word.old marks.old).word }
    ensures marks { marks.new ≡ (repair_in wide_edition m w c g word.old marks.old).marks }
{
    wide_recover::refusal(m, w, c, word, marks)?;
    if m <= g {
        return Err(Refusal::GroupNumber);
    }
    let a = g * w;
    let e = a + w;
    repair_part(c, g, &mut word[a..e], &mut marks[a..e])
}

// Whether a word is a codeword of the shape: no group contradicts, or the group that does.
pub fn check(m: usize, w: usize, c: usize, word: &[u16]) -> Result<Option<u8>, Refusal>
    ensures answer { result ≡ checked_in wide_edition m w c word.now }
    ensures number { checked_number result ≡ word_refusal_in wide_limits m w c (length word.now) }
    ensures figures { checked_figures result ≡ check_figures_in wide_edition m w c word.now }
{
    shape::word_refusal::<Wide>(m, w, c, word.len())?;
    let tested = wide_across::test(m, w, c, word);
    if tested.codeword {
        return Ok(None);
    }
    Ok(Some(tested.group as u8))
}

// Refuses a call by its shape and its lengths, as 1 to 4, 26, 29, then 5.
fn refusal(m: usize, w: usize, c: usize, word: usize, symbols: usize) -> Result<(), Refusal>
    ensures { refused_number result ≡ encode_refusal_in wide_limits m w c word symbols }
{
    shape::sale_refusal::<Wide>(m, w, c)?;
    shape::buffer_refusal::<Wide>(m, w, c, word, symbols)
}

// Recovers the check places of a word that holds its data; marks is room for the marks.
fn fill_checks(m: usize, w: usize, c: usize, word: &mut [u16], marks: &mut [u8])
    requires good_in { GoodIn wide_limits m w c }
    requires word_len { length word.old ≡ place_count m w }
    requires marks_len { length marks.old ≡ place_count m w }
    ensures { word.new ≡ (recover_in wide_edition m w c word.old (check_marks m w c)).word }
{
    places::mark_groups(w, c, marks);
    let _ = wide_recover::recover_determined(m, w, c, word, marks);
}

// The same, with room of its own for the marks: less of it for a word of at most 64 places, since it takes time to clear.
fn complete(m: usize, w: usize, c: usize, word: &mut [u16])
    requires good_in { GoodIn wide_limits m w c }
    requires word_len { length word.old ≡ place_count m w }
    ensures { word.new ≡ (recover_in wide_edition m w c word.old (check_marks m w c)).word }
{
    let n = word.len();
    if n <= 64 {
        let mut near = [0u8; 64];
        fill_checks(m, w, c, word, &mut near[..n]);
        return;
    }
    let mut marks = [0u8; 4096];
    fill_checks(m, w, c, word, &mut marks[..n]);
}

// Encodes k symbols into a word of n: the one codeword that carries them.
pub fn encode(
    m: usize,
    w: usize,
    c: usize,
    symbols: &[u16],
    word: &mut [u16],
) -> Result<(), Refusal>
    ensures answer { result ≡ encode_in wide_limits m w c symbols.now word.old }
    ensures number { answer_number result ≡ encode_refusal_in wide_limits m w c (length word.old) (length symbols.now) }
    ensures buffer { word.new ≡ encoded_buffer_in wide_edition m w c symbols.now word.old }
{
    refusal(m, w, c, word.len(), symbols.len())?;
    places::spread_data::<Wide>(m, w, c, symbols, word);
    complete(m, w, c, word);
    Ok(())
}

// Repairs the groups in the list, one after another, whatever each answers.
// A function in each edition: a generic one needs a trait that states the contracts of repair and recover once more, for a loop of one call.
fn repair_list(m: usize, w: usize, c: usize, word: &mut [u16], marks: &mut [u8], list: &[usize])
    ensures { held word.new marks.new ≡ held_after_list wide_edition m w c list.now (held word.old marks.old) }
{
    for g in list {
        let _ = repair(m, w, c, *g, word, marks);
    }
}

// Runs the repairs of the list and then the recovery.
pub fn repair_then_recover(
    m: usize,
    w: usize,
    c: usize,
    word: &mut [u16],
    marks: &mut [u8],
    list: &[usize],
) -> Result<(), Refusal>
    ensures answer { AnswersBy result (recover_after wide_edition m w c list.now word.old marks.old) }
    ensures word { word.new ≡ (recover_after wide_edition m w c list.now word.old marks.old).word }
    ensures marks { marks.new ≡ (recover_after wide_edition m w c list.now word.old marks.old).marks }
    ensures as_at_once { AnswersBy result (recover_in wide_edition m w c word.old marks.old) }
    ensures same_word { (recover_in wide_edition m w c word.old marks.old).number ≡ 0 → word.new ≡ (recover_in wide_edition m w c word.old marks.old).word }
    ensures same_marks { (recover_in wide_edition m w c word.old marks.old).number ≡ 0 → marks.new ≡ (recover_in wide_edition m w c word.old marks.old).marks }
{
    repair_list(m, w, c, word, marks, list);
    wide_recover::recover(m, w, c, word, marks)
}
