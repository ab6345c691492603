// The service Edit: one data byte of a codeword changed, with the checks that hang on it, and nothing else.

#![tactic(auto)]

mod rows;

ghost use Rattle.std.specs.Prelude.{◌≡◌, ◌+◌, ◌-◌, ◌*◌, ◌≤◌, ◌<◌, T, length};
ghost use Rattle.shape.specs.Shapes.{byte_limits};
ghost use Rattle.answers.specs.Answers.{refused_number, mending_number};
ghost use Rattle.code.specs.Limits.{data_count, GoodIn};
ghost use Rattle.byte_edition.specs.Edition.{byte_edition};
ghost use Rattle.code.specs.Word.{is_codeword};
ghost use Rattle.edit.specs.Edit.{edited_in, number_refusal_in, edit_refusal_in, edit_in, edited_buffer_in};
ghost use Rattle.edit.specs.Steps.{Refilled, AddedRows, corrected_of};

use answers::Refusal;
use shape::Bytes;
use syndrome::Sums;

// Refuses a call by its shape, its length and its number, as 1 to 4, 29, 5, then 30.
fn refusal(m: usize, w: usize, c: usize, lent: usize, number: usize) -> Result<(), Refusal>
    ensures { refused_number result ≡ number_refusal_in byte_limits m w c lent number }
{
    shape::sale_refusal::<Bytes>(m, w, c)?;
    shape::word_refusal::<Bytes>(m, w, c, lent)?;
    if m * (w - c) - 2 <= number {
        return Err(Refusal::DataNumber);
    }
    Ok(())
}

// Sets place j of group g's stretch and fills the group's c checks; gives what that changes in the two sums across.
fn refill(c: usize, g: usize, j: usize, byte: u8, part: &mut [u8]) -> Sums
    requires le_c { (1 ≤ c) × (c ≤ 3) }
    requires c_in_bounds { (c + 2 ≤ length part.old) × (length part.old ≤ 16) }
    requires g_bound { g < 15 }
    requires c_in_bounds_2 { j + c < length part.old }
    ensures { Refilled (length part.old) c g j byte part.old part.new result }
{
    let old = syndrome::group_sums(part, c, g);
    part[j] = byte;
    let tail = rows::TAIL;
    let e = 15 + c;
    let a = e - part.len();
    fill::fill(part, &tail[a..e]);
    let new = syndrome::group_sums(part, c, g);
    Sums {
        first: old.first ^ new.first,
        second: old.second ^ new.second,
    }
}

// Adds u times the row h and v times the row k.
fn add_rows(u: u8, h: &[u8], v: u8, k: &[u8], part: &mut [u8])
    requires h_len { length h.now ≡ length part.old }
    requires k_len { length k.now ≡ length part.old }
    ensures { AddedRows u h.now v k.now part.old part.new }
{
    for (i, byte) in part.iter_mut().enumerate() {
        let a = gf256::shifted_product(u, h[i]);
        let b = gf256::shifted_product(v, k[i]);
        *byte ^= a ^ b;
    }
}

// Changes the last group's c+2 checks, so that sums across that were first and second come to zero and the group's own stay.
fn correct(m: usize, w: usize, c: usize, first: u8, second: u8, word: &mut [u8])
    requires good_in { GoodIn byte_limits m w c }
    requires c_bound { c ≤ 3 }
    requires word_len { length word.old ≡ m * w }
    ensures { word.new ≡ corrected_of m w c first second word.old }
{
    let factor = gf256::shifted_product(second, gf256::power_of_two(15 - m));
    let n = word.len();
    let checks = c + 2;
    let a = n - checks;
    let b = ((c - 1) * 14 + (w - checks)) * 5;
    let e = b + checks;
    let h = rows::FIRST;
    let k = rows::SECOND;
    add_rows(first, &h[b..e], factor, &k[b..e], &mut word[a..n]);
}

// Changes a data byte of a codeword, with the checks of its group and of the last.
fn change(m: usize, w: usize, c: usize, number: usize, byte: u8, word: &mut [u8])
    requires good_in { GoodIn byte_limits m w c }
    requires c_bound { c ≤ 3 }
    requires word_len { length word.old ≡ m * w }
    requires number_bound { number < data_count m w c }
    requires t { T (is_codeword byte_edition m w c word.old) }
    ensures { word.new ≡ edited_in byte_edition m w c word.old number byte }
{
    let v = w - c;
    let g = number / v;
    let j = number % v;
    let a = g * w;
    let e = a + w;
    let s = refill(c, g, j, byte, &mut word[a..e]);
    correct(m, w, c, s.first, s.second, word);
}

// Changes the data byte of this number in a codeword, and leaves it as encoding the changed data would; or refuses and changes nothing.
pub fn edit(
    m: usize,
    w: usize,
    c: usize,
    word: &mut [u8],
    number: usize,
    byte: u8,
) -> Result<(), Refusal>
    ensures answer { result ≡ edit_in byte_edition m w c word.old number }
    ensures number { mending_number result ≡ edit_refusal_in byte_edition m w c word.old number }
    ensures word { word.new ≡ edited_buffer_in byte_edition m w c word.old number byte }
{
    refusal(m, w, c, word.len(), number)?;
    let tested = syndrome::test(m, w, c, word);
    if !tested.codeword {
        return Err(Refusal::Contradictory(tested.group as u8));
    }
    change(m, w, c, number, byte, word);
    Ok(())
}
