// The services, Edit, and the version and texts of the library, as C calls them.

#![tactic(auto)]

ghost use Rattle.std.specs.Prelude.{◌≡◌, length, get_or};
ghost use Rattle.shape.specs.Shapes.{byte_limits};
ghost use Rattle.code.specs.Limits.{shape_refusal_in, buffer_refusal_in};
ghost use Rattle.byte_edition.specs.Edition.{byte_edition};
ghost use Rattle.code_services.specs.Check.{checked_in};
ghost use Rattle.code_services.specs.Judge.{judged_number_in};
ghost use Rattle.code_services.specs.Recover.{recover_in};
ghost use Rattle.code_services.specs.Repair.{repair_in};
ghost use Rattle.c_answers.specs.Mends.{outcome_mended, mending_mended};
ghost use Rattle.c_answers.specs.Numbers.{checked_mended};
ghost use Rattle.code_services.specs.Places.{extracted_data_in, check_marks_refusal_in, check_marks_buffer_in};
ghost use Rattle.profile.specs.Profiled.{profiled_of};
ghost use Rattle.answers.specs.Figures.{figures_in};
ghost use Rattle.c_services.specs.Profiles.{profile_answer};
ghost use Rattle.code_services.specs.Encode.{encode_refusal_in, encoded_buffer_in};
ghost use Rattle.edit.specs.Edit.{edit_in, edited_buffer_in};
ghost use Rattle.release.specs.Version.{library_version, desk_layout, gather_layout};
ghost use Rattle.release.specs.Texts.{number_text, lent_text};

use answers::Refusal;
use c_answers::Mended;
use profile::PlaceSet;
use shape::Bytes;

#[unsafe(no_mangle)]
pub extern "C" fn axlebloom_describe(m: usize, w: usize, c: usize) -> u8
    ensures { result ≡ shape_refusal_in byte_limits m w c }
{
    c_answers::described_number(shape::describe::<Bytes>(m, w, c))
}

#[unsafe(no_mangle)]
pub extern "C" fn axlebloom_places(m: usize, w: usize, c: usize) -> usize
    ensures { result ≡ get_or (figures_in byte_limits m w c) 0 0 }
{
    c_answers::described_places(shape::describe::<Bytes>(m, w, c))
}

#[unsafe(no_mangle)]
pub extern "C" fn axlebloom_data(m: usize, w: usize, c: usize) -> usize
    ensures { result ≡ get_or (figures_in byte_limits m w c) 1 0 }
{
    c_answers::described_data(shape::describe::<Bytes>(m, w, c))
}

#[unsafe(no_mangle)]
pub extern "C" fn axlebloom_sure(m: usize, w: usize, c: usize) -> usize
    ensures { result ≡ get_or (figures_in byte_limits m w c) 2 0 }
{
    c_answers::described_sure(shape::describe::<Bytes>(m, w, c))
}

#[unsafe(no_mangle)]
pub extern "C" fn axlebloom_check(m: usize, w: usize, c: usize, word: &[u8]) -> Mended
    ensures { result ≡ checked_mended (checked_in byte_edition m w c word.now) }
{
    c_answers::mended_of_check(word_check::check(m, w, c, word))
}

#[unsafe(no_mangle)]
pub extern "C" fn axlebloom_encode(
    m: usize,
    w: usize,
    c: usize,
    bytes: &[u8],
    word: &mut [u8],
) -> u8
    ensures number { result ≡ encode_refusal_in byte_limits m w c (length word.old) (length bytes.now) }
    ensures buffer { word.new ≡ encoded_buffer_in byte_edition m w c bytes.now word.old }
{
    c_answers::number(encode::encode(m, w, c, bytes, word))
}

#[unsafe(no_mangle)]
pub extern "C" fn axlebloom_extract(
    m: usize,
    w: usize,
    c: usize,
    word: &[u8],
    bytes: &mut [u8],
) -> u8
    ensures number { result ≡ buffer_refusal_in byte_limits m w c (length word.now) (length bytes.old) }
    ensures buffer { bytes.new ≡ extracted_data_in byte_limits m w c word.now bytes.old }
{
    c_answers::number(places::extract::<Bytes>(m, w, c, word, bytes))
}

#[unsafe(no_mangle)]
pub extern "C" fn axlebloom_check_marks(m: usize, w: usize, c: usize, marks: &mut [u8]) -> u8
    ensures number { result ≡ check_marks_refusal_in byte_limits m w c (length marks.old) }
    ensures marks { marks.new ≡ check_marks_buffer_in byte_limits m w c marks.old }
{
    c_answers::number(places::check_marks::<Bytes>(m, w, c, marks))
}

#[unsafe(no_mangle)]
pub extern "C" fn axlebloom_judge(m: usize, w: usize, c: usize, marks: &[u8]) -> u8
    ensures { result ≡ judged_number_in byte_limits m w c marks.now }
{
    c_answers::judged_number(judge::judge::<Bytes>(m, w, c, marks))
}

#[unsafe(no_mangle)]
pub extern "C" fn axlebloom_repair(
    m: usize,
    w: usize,
    c: usize,
    g: usize,
    word: &mut [u8],
    marks: &mut [u8],
) -> Mended
    ensures answer { result ≡ outcome_mended (repair_in byte_edition m w c g word.old marks.old) }
    ensures word { word.new ≡ (repair_in byte_edition m w c g word.old marks.old).word }
    ensures marks { marks.new ≡ (repair_in byte_edition m w c g word.old marks.old).marks }
{
    c_answers::mended_of(repair::repair(m, w, c, g, word, marks))
}

#[unsafe(no_mangle)]
pub extern "C" fn axlebloom_recover(
    m: usize,
    w: usize,
    c: usize,
    word: &mut [u8],
    marks: &mut [u8],
) -> Mended
    ensures answer { result ≡ outcome_mended (recover_in byte_edition m w c word.old marks.old) }
    ensures word { word.new ≡ (recover_in byte_edition m w c word.old marks.old).word }
    ensures marks { marks.new ≡ (recover_in byte_edition m w c word.old marks.old).marks }
{
    c_answers::mended_of(recover::recover(m, w, c, word, marks))
}

// What the judge of the profile gives to C: the number, 0 for yes, and the set of place numbers that shows it; on a refusal all else is 0.
#[repr(C)]
#[derive(Clone, Copy, Debug, PartialEq, Eq)]
pub struct ProfileAnswer {
    pub number: u8,
    pub count: u8,
    pub first: u8,
    pub second: u8,
    pub third: u8,
    pub fourth: u8,
}

// The number and the set of what the judge of the profile answers.
fn profile_answer(profiled: Result<PlaceSet, Refusal>) -> ProfileAnswer
    ensures { result ≡ profile_answer profiled }
{
    match profiled {
        Ok(p) => ProfileAnswer {
            number: 0,
            count: p.count,
            first: p.first,
            second: p.second,
            third: p.third,
            fourth: p.fourth,
        },
        Err(e) => ProfileAnswer {
            number: e.number(),
            count: 0,
            first: 0,
            second: 0,
            third: 0,
            fourth: 0,
        },
    }
}

#[unsafe(no_mangle)]
pub extern "C" fn axlebloom_profile(m: usize, w: usize, c: usize, marks: &[u8]) -> ProfileAnswer
    ensures { result ≡ profile_answer (profiled_of m w c marks.now) }
{
    profile_answer(profile::judge_profile(m, w, c, marks))
}

#[unsafe(no_mangle)]
pub extern "C" fn axlebloom_edit(
    m: usize,
    w: usize,
    c: usize,
    word: &mut [u8],
    number: usize,
    byte: u8,
) -> Mended
    ensures answer { result ≡ mending_mended (edit_in byte_edition m w c word.old number) }
    ensures word { word.new ≡ edited_buffer_in byte_edition m w c word.old number byte }
{
    c_answers::mended_of(edit::edit(m, w, c, word, number, byte))
}

#[unsafe(no_mangle)]
pub extern "C" fn axlebloom_version() -> u32
    ensures { result ≡ library_version }
{
    release::version()
}

#[unsafe(no_mangle)]
pub extern "C" fn axlebloom_desk_layout() -> u32
    ensures { result ≡ desk_layout }
{
    release::desk_layout()
}

#[unsafe(no_mangle)]
pub extern "C" fn axlebloom_gather_layout() -> u32
    ensures { result ≡ gather_layout }
{
    release::gather_layout()
}

#[unsafe(no_mangle)]
pub extern "C" fn axlebloom_text(number: usize, text: &mut [u8]) -> usize
    ensures size { result ≡ length (number_text number) }
    ensures text { text.new ≡ lent_text (number_text number) text.old }
{
    release::number_text(number, text)
}
