// The service Check.

#![tactic(auto)]

ghost use Rattle.std.specs.Prelude.{◌≡◌, length};
ghost use Rattle.shape.specs.Shapes.{byte_limits};
ghost use Rattle.code.specs.Limits.{word_refusal_in};
ghost use Rattle.byte_edition.specs.Edition.{byte_edition};
ghost use Rattle.answers.specs.Figures.{checked_number, checked_figures};
ghost use Rattle.code_services.specs.Check.{checked_in, check_figures_in};

use answers::Refusal;
use shape::Bytes;

// Whether a word is a codeword of the shape: no group contradicts, or the group that does.
pub fn check(m: usize, w: usize, c: usize, word: &[u8]) -> Result<Option<u8>, Refusal>
    ensures answer { result ≡ checked_in byte_edition m w c word.now }
    ensures number { checked_number result ≡ word_refusal_in byte_limits m w c (length word.now) }
    ensures figures { checked_figures result ≡ check_figures_in byte_edition m w c word.now }
{
    shape::word_refusal::<Bytes>(m, w, c, word.len())?;
    let tested = syndrome::test(m, w, c, word);
    if tested.codeword {
        return Ok(None);
    }
    Ok(Some(tested.group as u8))
}
