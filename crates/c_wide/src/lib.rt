// The services of the sixteen-bit edition as C calls them: numbers, lent symbols and marks, each with its length, and the number given back, 0
// for done; with the group that a 9 carries, where a service gives one.

#![tactic(auto)]

ghost use Rattle.std.specs.Prelude.{◌≡◌, length, get_or};
ghost use Rattle.code.specs.Limits.{shape_refusal_in, buffer_refusal_in};
ghost use Rattle.code_services.specs.Check.{checked_in};
ghost use Rattle.code_services.specs.Places.{extracted_data_in, check_marks_refusal_in, check_marks_buffer_in};
ghost use Rattle.code_services.specs.Judge.{judged_number_in};
ghost use Rattle.code_services.specs.Recover.{recover_in};
ghost use Rattle.code_services.specs.Repair.{repair_in};
ghost use Rattle.code_services.specs.Encode.{encode_refusal_in, encoded_buffer_in};
ghost use Rattle.wide_shape.specs.Edition.{wide_limits, wide_edition};
ghost use Rattle.c_answers.specs.Mends.{outcome_mended};
ghost use Rattle.c_answers.specs.Numbers.{checked_mended};
ghost use Rattle.answers.specs.Figures.{figures_in};

use c_answers::Mended;
use wide_shape::Wide;

#[unsafe(no_mangle)]
pub extern "C" fn axlebloom_wide_describe(m: usize, w: usize, c: usize) -> u8
    ensures { result ≡ shape_refusal_in wide_limits m w c }
{
    c_answers::described_number(shape::describe::<Wide>(m, w, c))
}

#[unsafe(no_mangle)]
pub extern "C" fn axlebloom_wide_places(m: usize, w: usize, c: usize) -> usize
    ensures { result ≡ get_or (figures_in wide_limits m w c) 0 0 }
{
    c_answers::described_places(shape::describe::<Wide>(m, w, c))
}

#[unsafe(no_mangle)]
pub extern "C" fn axlebloom_wide_data(m: usize, w: usize, c: usize) -> usize
    ensures { result ≡ get_or (figures_in wide_limits m w c) 1 0 }
{
    c_answers::described_data(shape::describe::<Wide>(m, w, c))
}

#[unsafe(no_mangle)]
pub extern "C" fn axlebloom_wide_sure(m: usize, w: usize, c: usize) -> usize
    ensures { result ≡ get_or (figures_in wide_limits m w c) 2 0 }
{
    c_answers::described_sure(shape::describe::<Wide>(m, w, c))
}

#[unsafe(no_mangle)]
pub extern "C" fn axlebloom_wide_check(m: usize, w: usize, c: usize, word: &[u16]) -> Mended
    ensures { result ≡ checked_mended (checked_in wide_edition m w c word.now) }
{
    c_answers::mended_of_check(wide_services::check(m, w, c, word))
}

#[unsafe(no_mangle)]
pub extern "C" fn axlebloom_wide_encode(
    m: usize,
    w: usize,
    c: usize,
    symbols: &[u16],
    word: &mut [u16],
) -> u8
    ensures number { result ≡ encode_refusal_in wide_limits m w c (length word.old) (length symbols.now) }
    ensures buffer { word.new ≡ encoded_buffer_in wide_edition m w c symbols.now word.old }
{
    c_answers::number(wide_services::encode(m, w, c, symbols, word))
}

#[unsafe(no_mangle)]
pub extern "C" fn axlebloom_wide_extract(
    m: usize,
    w: usize,
    c: usize,
    word: &[u16],
    symbols: &mut [u16],
) -> u8
    ensures number { result ≡ buffer_refusal_in wide_limits m w c (length word.now) (length symbols.old) }
    ensures buffer { symbols.new ≡ extracted_data_in wide_limits m w c word.now symbols.old }
{
    c_answers::number(places::extract::<Wide>(m, w, c, word, symbols))
}

#[unsafe(no_mangle)]
pub extern "C" fn axlebloom_wide_check_marks(m: usize, w: usize, c: usize, marks: &mut [u8]) -> u8
    ensures number { result ≡ check_marks_refusal_in wide_limits m w c (length marks.old) }
    ensures marks { marks.new ≡ check_marks_buffer_in wide_limits m w c marks.old }
{
    c_answers::number(places::check_marks::<Wide>(m, w, c, marks))
}

#[unsafe(no_mangle)]
pub extern "C" fn axlebloom_wide_judge(m: usize, w: usize, c: usize, marks: &[u8]) -> u8
    ensures { result ≡ judged_number_in wide_limits m w c marks.now }
{
    c_answers::judged_number(judge::judge::<Wide>(m, w, c, marks))
}

#[unsafe(no_mangle)]
pub extern "C" fn axlebloom_wide_repair(
    m: usize,
    w: usize,
    c: usize,
    g: usize,
    word: &mut [u16],
    marks: &mut [u8],
) -> Mended
    ensures answer { result ≡ outcome_mended (repair_in wide_edition m w c g word.old marks.old) }
    ensures word { word.new ≡ (repair_in wide_edition m w c g word.old marks.old).word }
    ensures marks { marks.new ≡ (repair_in wide_edition m w c g word.old marks.old).marks }
{
    c_answers::mended_of(wide_services::repair(m, w, c, g, word, marks))
}

#[unsafe(no_mangle)]
pub extern "C" fn axlebloom_wide_recover(
    m: usize,
    w: usize,
    c: usize,
    word: &mut [u16],
    marks: &mut [u8],
) -> Mended
    ensures answer { result ≡ outcome_mended (recover_in wide_edition m w c word.old marks.old) }
    ensures word { word.new ≡ (recover_in wide_edition m w c word.old marks.old).word }
    ensures marks { marks.new ≡ (recover_in wide_edition m w c word.old marks.old).marks }
{
    c_answers::mended_of(wide_recover::recover(m, w, c, word, marks))
}
