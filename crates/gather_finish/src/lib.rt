// The service Finish, by value.

#![tactic(auto)]

ghost use Rattle.std.specs.Prelude.{◌≡◌, length};
ghost use Rattle.answers.specs.Answers.{refused_number, mending_number, mending_at};
ghost use Rattle.code.specs.Refusals.{unless_refused};
ghost use Rattle.gather_finish.specs.Finish.{finish_refusal, gather_recovery, finish_of, FinishGives};

use answers::Refusal;
use gather_record::{After, Gather};

// Refuses a finish before 8 and 9: as the record, of which 22 is the last, and only then as 5.
fn finish_refusal(gather: Gather, size: usize) -> Result<(), Refusal>
    ensures { refused_number result ≡ finish_refusal size gather }
{
    gather_record::refusal(gather)?;
    let n = (gather.m as usize) * (gather.w as usize);
    if size == n {
        Ok(())
    } else {
        Err(Refusal::Length)
    }
}

// Recovers a copy of what came: 8, or 9 with a group, or done, and then the word is written.
fn recover_copy(gather: Gather, word: &mut [u8]) -> Result<(), Refusal>
    requires { finish_refusal (length word.old) gather ≡ 0 }
    ensures answer { result ≡ mending_at (gather_recovery gather).number (gather_recovery gather).group }
    ensures number { mending_number result ≡ (gather_recovery gather).number }
    ensures word { word.new ≡ unless_refused (gather_recovery gather).number (gather_recovery gather).word word.old }
{
    let m = gather.m as usize;
    let w = gather.w as usize;
    let c = gather.c as usize;
    let n = word.len();
    let mut found = gather.bytes;
    let mut marks = gather.marks;
    recover::recover(m, w, c, &mut found[..n], &mut marks[..n])?;
    buffers::copy_from_slice(word, &found[..n]);
    Ok(())
}

// The service Finish. Its refusals, in this order: those of the record, 22 the last of them; 5; 8; 9. Once none before 8 applies, the record is finished,
// whatever the recovery answers.
pub fn finish(gather: Gather, word: &mut [u8]) -> After
    ensures { FinishGives (finish_of word.old gather) word.new result.gather result.answer }
{
    if let Err(e) = finish_refusal(gather, word.len()) {
        return After {
            gather,
            answer: Err(e),
        };
    }
    let answer = recover_copy(gather, word);
    After {
        gather: Gather {
            finished: 1,
            ..gather
        },
        answer,
    }
}
