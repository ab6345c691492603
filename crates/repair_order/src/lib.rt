// Repairs of groups and then a recovery, which answers as it would at once.

#![tactic(auto)]

ghost use Rattle.std.specs.Prelude.{◌≡◌};
ghost use Rattle.byte_edition.specs.Edition.{byte_edition};
ghost use Rattle.code_services.specs.Answered.{AnswersBy};
ghost use Rattle.code_services.specs.Recover.{recover_in};
ghost use Rattle.code_services.specs.RepairOrder.{held, held_after_list, recover_after};

use answers::Refusal;

// Repairs the groups in the list, one after another, whatever each answers.
fn repair_list(m: usize, w: usize, c: usize, word: &mut [u8], marks: &mut [u8], list: &[usize])
    ensures { held word.new marks.new ≡ held_after_list byte_edition m w c list.now (held word.old marks.old) }
{
    for g in list {
        let _ = repair::repair(m, w, c, *g, word, marks);
    }
}

// Runs the repairs of the list and then the recovery.
pub fn repair_then_recover(
    m: usize,
    w: usize,
    c: usize,
    word: &mut [u8],
    marks: &mut [u8],
    list: &[usize],
) -> Result<(), Refusal>
    ensures answer { AnswersBy result (recover_after byte_edition m w c list.now word.old marks.old) }
    ensures word { word.new ≡ (recover_after byte_edition m w c list.now word.old marks.old).word }
    ensures marks { marks.new ≡ (recover_after byte_edition m w c list.now word.old marks.old).marks }
    ensures as_at_once { AnswersBy result (recover_in byte_edition m w c word.old marks.old) }
    ensures same_word { (recover_in byte_edition m w c word.old marks.old).number ≡ 0 → word.new ≡ (recover_in byte_edition m w c word.old marks.old).word }
    ensures same_marks { (recover_in byte_edition m w c word.old marks.old).number ≡ 0 → marks.new ≡ (recover_in byte_edition m w c word.old marks.old).marks }
{
    repair_list(m, w, c, word, marks, list);
    recover::recover(m, w, c, word, marks)
}
