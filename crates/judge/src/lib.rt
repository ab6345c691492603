// The service Judge.

#![tactic(auto)]

ghost use Rattle.std.specs.Prelude.{◌≡◌};
ghost use Rattle.answers.specs.Figures.{judged_number};
ghost use Rattle.code_services.specs.Judge.{judged_number_in, judged_in};

use answers::Refusal;
use shape::Edition;

// Whether a pattern of losses leaves a codeword determined.
pub fn judge<E: Edition>(m: usize, w: usize, c: usize, marks: &[u8]) -> Result<(), Refusal>
    ensures answer { result ≡ judged_in E.limits m w c marks.now }
    ensures number { judged_number result ≡ judged_number_in E.limits m w c marks.now }
{
    marks::marks_refusal::<E>(m, w, c, marks)?;
    if 2 < marks::pattern_excess(w, c, marks) {
        return Err(Refusal::Undetermined);
    }
    Ok(())
}
