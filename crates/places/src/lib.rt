// Which places of a word carry data: taking the data out, putting it in, and marking the check places.

#![tactic(auto)]

ghost use Rattle.std.specs.Prelude.{◌≡◌, ◌++◌, ◌-◌, ◌≤◌, length, replicate};
ghost use Rattle.answers.specs.Answers.{refused_number, answer_number};
ghost use Rattle.code.specs.Limits.{place_count, data_count, GoodIn, buffer_refusal_in};
ghost use Rattle.code_services.specs.Places.{extract_over, placed_over};
ghost use Rattle.code_services.specs.Places.{extracted_in, extracted_data_over, check_marks_refusal_in, check_marks_answer_in, check_marks_buffer_in};
ghost use Rattle.code_services.specs.PlacesRuns.{data_in, with_checks};

use answers::Refusal;
use shape::Edition;

// How many places of group g carry data; none where its checks are too many.
pub fn data_in(m: usize, w: usize, c: usize, g: usize) -> usize
    ensures { result ≡ data_in m w c g }
{
    let inner = w.saturating_sub(c);
    if m.saturating_sub(g) == 1 {
        inner.saturating_sub(2)
    } else {
        inner
    }
}

// Copies the data symbols of word, in word order, group by group.
fn copy_data<E: Edition>(
    m: usize,
    w: usize,
    c: usize,
    word: &[E::Symbol],
    symbols: &mut [E::Symbol],
)
    requires good_in { GoodIn E.limits m w c }
    requires word_len { length word.now ≡ place_count m w }
    requires symbols_len { length symbols.old ≡ data_count m w c }
    ensures { symbols.new ≡ extract_over E.ZERO m w c word.now }
{
    let mut i: usize = 0;
    for g in 0..m {
        let a = g * w;
        let d = data_in(m, w, c, g);
        let e = a + d;
        let n = i + d;
        buffers::copy_from_slice(&mut symbols[i..n], &word[a..e]);
        i = n;
    }
}

// The service Extract.
pub fn extract<E: Edition>(
    m: usize,
    w: usize,
    c: usize,
    word: &[E::Symbol],
    symbols: &mut [E::Symbol],
) -> Result<(), Refusal>
    ensures answer { result ≡ extracted_in E.limits m w c word.now symbols.old }
    ensures number { answer_number result ≡ buffer_refusal_in E.limits m w c (length word.now) (length symbols.old) }
    ensures buffer { symbols.new ≡ extracted_data_over E.ZERO E.limits m w c word.now symbols.old }
{
    shape::buffer_refusal::<E>(m, w, c, word.len(), symbols.len())?;
    copy_data::<E>(m, w, c, word, symbols);
    Ok(())
}

// Writes symbols to the front of a part, and zero after them.
fn spread_part<T: Copy>(zero: T, symbols: &[T], part: &mut [T])
    requires { length symbols.now ≤ length part.old }
    ensures { part.new ≡ symbols.now ++ replicate (length part.old - length symbols.now) zero }
{
    let d = symbols.len();
    buffers::copy(symbols, &mut part[..d]);
    buffers::set_all(&mut part[d..], zero);
}

// Writes data into the data places, in word order, and 0 into the check places, group by group.
pub fn spread_data<E: Edition>(
    m: usize,
    w: usize,
    c: usize,
    symbols: &[E::Symbol],
    word: &mut [E::Symbol],
)
    requires good_in { GoodIn E.limits m w c }
    requires word_len { length word.old ≡ place_count m w }
    requires symbols_len { length symbols.now ≡ data_count m w c }
    ensures { word.new ≡ placed_over E.ZERO m w c symbols.now }
{
    let mut i: usize = 0;
    for g in 0..m {
        let a = g * w;
        let e = a + w;
        let n = i + data_in(m, w, c, g);
        spread_part(E::ZERO, &symbols[i..n], &mut word[a..e]);
        i = n;
    }
}

// Marks the places of a part from d on.
fn mark_part(d: usize, part: &mut [u8])
    requires { d ≤ length part.old }
    ensures { part.new ≡ replicate d 0 ++ replicate (length part.old - d) 1 }
{
    part[..d].fill(0);
    part[d..].fill(1);
}

// Marks the check places of every group of w places, and clears its other marks. Only complete groups are treated: places after the last one stay as they are,
// and a width of 0 has no group.
pub fn mark_groups(w: usize, c: usize, marks: &mut [u8])
    ensures { marks.new ≡ with_checks w c marks.old }
{
    if w == 0 {
        return;
    }
    let m = marks.len() / w;
    for g in 0..m {
        let a = g * w;
        let e = a + w;
        mark_part(data_in(m, w, c, g), &mut marks[a..e]);
    }
}

// Refuses Check marks by the shape and the length of the marks, as 1 to 4, 26, 29, then 5.
fn check_marks_refusal<E: Edition>(
    m: usize,
    w: usize,
    c: usize,
    marks: usize,
) -> Result<(), Refusal>
    ensures { refused_number result ≡ check_marks_refusal_in E.limits m w c marks }
{
    shape::sale_refusal::<E>(m, w, c)?;
    shape::word_refusal::<E>(m, w, c, marks)
}

// The service Check marks: 1 at each check place and 0 at each other.
pub fn check_marks<E: Edition>(
    m: usize,
    w: usize,
    c: usize,
    marks: &mut [u8],
) -> Result<(), Refusal>
    ensures answer { result ≡ check_marks_answer_in E.limits m w c marks.old }
    ensures number { answer_number result ≡ check_marks_refusal_in E.limits m w c (length marks.old) }
    ensures marks { marks.new ≡ check_marks_buffer_in E.limits m w c marks.old }
{
    check_marks_refusal::<E>(m, w, c, marks.len())?;
    mark_groups(w, c, marks);
    Ok(())
}
