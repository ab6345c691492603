// The service Encode.

#![tactic(auto)]

ghost use Rattle.std.specs.Prelude.{◌≡◌, length};
ghost use Rattle.shape.specs.Shapes.{byte_limits};
ghost use Rattle.answers.specs.Answers.{refused_number, answer_number};
ghost use Rattle.code.specs.Limits.{place_count, GoodIn};
ghost use Rattle.byte_edition.specs.Edition.{byte_edition};
ghost use Rattle.code_services.specs.Places.{check_marks};
ghost use Rattle.code_services.specs.Recover.{recover_in};
ghost use Rattle.code_services.specs.Encode.{encode_refusal_in, encode_in, encoded_buffer_in};

use answers::Refusal;
use shape::Bytes;

// Refuses a call by its shape and its lengths, as 1 to 4, 29, then 5.
fn refusal(m: usize, w: usize, c: usize, word: usize, bytes: usize) -> Result<(), Refusal>
    ensures { refused_number result ≡ encode_refusal_in byte_limits m w c word bytes }
{
    shape::sale_refusal::<Bytes>(m, w, c)?;
    shape::buffer_refusal::<Bytes>(m, w, c, word, bytes)
}

// Recovers the check places of a word that holds its data; marks is room for the marks.
fn fill_checks(m: usize, w: usize, c: usize, word: &mut [u8], marks: &mut [u8])
    requires good_in { GoodIn byte_limits m w c }
    requires word_len { length word.old ≡ place_count m w }
    requires marks_len { length marks.old ≡ place_count m w }
    ensures { word.new ≡ (recover_in byte_edition m w c word.old (check_marks m w c)).word }
{
    places::mark_groups(w, c, marks);
    let _ = recover::recover_determined(m, w, c, word, marks);
}

// Encodes k bytes into a word of n: the one codeword that carries them.
pub fn encode(m: usize, w: usize, c: usize, bytes: &[u8], word: &mut [u8]) -> Result<(), Refusal>
    ensures answer { result ≡ encode_in byte_limits m w c bytes.now word.old }
    ensures number { answer_number result ≡ encode_refusal_in byte_limits m w c (length word.old) (length bytes.now) }
    ensures buffer { word.new ≡ encoded_buffer_in byte_edition m w c bytes.now word.old }
{
    refusal(m, w, c, word.len(), bytes.len())?;
    places::spread_data::<Bytes>(m, w, c, bytes, word);
    let n = word.len();
    let mut marks = [0u8; 240];
    fill_checks(m, w, c, word, &mut marks[..n]);
    Ok(())
}
