// The sums of a word's equations (its syndromes), and whether they are all zero.

#![tactic(auto)]

ghost use Rattle.std.specs.Prelude.{◌≡◌, true, false, ◌&&◌, eqb, ℕ, ◌+◌, ◌*◌, ◌≤◌, ◌<◌, length, get_or};
ghost use Rattle.binary_field.specs.Xor.{◌⊕◌};
ghost use Rattle.binary_field.specs.Product.{double};
ghost use Rattle.shape.specs.Shapes.{byte_limits};
ghost use Rattle.code.specs.Limits.{GoodIn};
ghost use Rattle.byte_edition.specs.Edition.{byte_edition};
ghost use Rattle.code.specs.Word.{is_local};
ghost use Rattle.syndrome.specs.Across.{plain_sums, group_sums, row_sums, across_of, no_sums};
ghost use Rattle.code_engine.specs.Horner.{AddedRows, HornerRows};
ghost use Rattle.code_engine.specs.Tests.{not_tested, tested_in};
ghost use Rattle.code.specs.Lent.{LentIn};
ghost use Rattle.code.specs.Stretch.{stretch};
ghost use Rattle.code_loops.specs.Broken.{PartTested};

use answers::Tested;
use shape::Bytes;

// What the two equations across sum up to.
#[derive(Clone, Copy, Debug, PartialEq, Eq)]
pub struct Sums {
    pub first: u8,
    pub second: u8,
}

// Whether the first c local sums of at most sixteen places are zero.
fn zero_sums(part: &[u8], c: usize) -> bool
    requires { (length part.now ≤ 16) × (c ≤ 4) }
    ensures { result ≡ is_local byte_edition (length part.now) c part.now 0 }
{
    for e in 0..c {
        if byte_edition::power_sum(part, e) != 0 {
            return false;
        }
    }
    true
}

// Whether the first c local sums of one group's stretch are zero; false for more than 16 places or c above 4. A stretch of five to
// fifteen places is padded, since sums over sixteen places are fast.
pub fn local_zero(part: &[u8], c: usize) -> bool
    ensures value { length part.now ≤ 16 → c ≤ 4 → result ≡ is_local byte_edition (length part.now) c part.now 0 }
    ensures value_2 { (length part.now ≤ 16 → c ≤ 4 → ⊥) → result ≡ false }
{
    if 4 < c {
        return false;
    }
    if 16 < part.len() {
        return false;
    }
    if part.len() == 16 {
        return zero_sums(part, c);
    }
    if part.len() < 5 {
        return zero_sums(part, c);
    }
    let x = byte_edition::padded(part);
    zero_sums(&x, c)
}

// Whether a stretch has at most 16 places and c is from 1 to 4.
fn in_range(places: usize, c: usize) -> bool
    ensures places_bound { result ≡ true → (places ≤ 16) × (1 ≤ c) × (c ≤ 4) }
    ensures fact { result ≡ false → places ≤ 16 → 1 ≤ c → c ≤ 4 → ⊥ }
{
    if c == 0 {
        return false;
    }
    if 4 < c {
        return false;
    }
    places <= 16
}

// The inner products of a stretch with the coefficients of the two sums across, without the factor of its group.
fn plain_sums(part: &[u8], c: usize) -> Sums
    requires { (length part.now ≤ 16) × (1 ≤ c) × (c ≤ 4) }
    ensures { result ≡ plain_sums c part.now }
{
    let first = byte_edition::first_sum(part, c - 1);
    let second = byte_edition::second_sum(part, c - 1);
    Sums { first, second }
}

// The same; a stretch of fewer than sixteen places is padded.
fn padded_sums(part: &[u8], c: usize) -> Sums
    requires { (length part.now ≤ 16) × (1 ≤ c) × (c ≤ 4) }
    ensures { result ≡ plain_sums c part.now }
{
    if part.len() == 16 {
        return plain_sums(part, c);
    }
    let x = byte_edition::padded(part);
    plain_sums(&x, c)
}

// The part of group g of the two sums across, from its stretch: in the second 2^g stands before the group's sum. 0 out of range.
pub fn group_sums(part: &[u8], c: usize, g: usize) -> Sums
    ensures value { length part.now ≤ 16 → 1 ≤ c → c ≤ 4 → g < 15 → result ≡ group_sums c g part.now }
    ensures value_2 { (length part.now ≤ 16 → 1 ≤ c → c ≤ 4 → g < 15 → ⊥) → result ≡ no_sums }
{
    let none = Sums {
        first: 0,
        second: 0,
    };
    if !in_range(part.len(), c) {
        return none;
    }
    if 14 < g {
        return none;
    }
    let s = padded_sums(part, c);
    let second = gf256::shifted_product(gf256::power_of_two(g), s.second);
    Sums {
        first: s.first,
        second,
    }
}

// Two rows of sixteen places: a sum of groups, and the same with a power of two before each.
#[derive(Clone, Copy)]
struct Rows {
    plain: [u8; 16],
    weighted: [u8; 16],
}

// The row x plus the first sixteen places of a part.
fn plus(x: [u8; 16], part: &[u8]) -> [u8; 16]
    requires { 16 ≤ length part.now }
    ensures { (j : ℕ) → j < 16 → get_or result j 0 ≡ get_or x j 0 ⊕ get_or part.now j 0 }
{
    let mut r = [0u8; 16];
    for i in 0..16 {
        r[i] = x[i] ^ part[i];
    }
    r
}

// Twice the row x plus the first sixteen places of a part.
fn twice_plus(x: [u8; 16], part: &[u8]) -> [u8; 16]
    requires { 16 ≤ length part.now }
    ensures { (j : ℕ) → j < 16 → get_or result j 0 ≡ double 8 285 (get_or x j 0) ⊕ get_or part.now j 0 }
{
    let mut r = [0u8; 16];
    for i in 0..16 {
        r[i] = gf256::double(x[i]) ^ part[i];
    }
    r
}

// Both rows with the first sixteen places of a part added.
fn add_sixteen(x: [u8; 16], y: [u8; 16], part: &[u8]) -> Rows
    requires { 16 ≤ length part.now }
    ensures { AddedRows part.now x y result.plain result.weighted }
{
    let plain = plus(x, part);
    let weighted = twice_plus(y, part);
    Rows { plain, weighted }
}

// The same; a part of fewer than sixteen places counts as followed by zeros.
fn add_part(x: [u8; 16], y: [u8; 16], part: &[u8]) -> Rows
    ensures { AddedRows part.now x y result.plain result.weighted }
{
    if 16 <= part.len() {
        return add_sixteen(x, y, part);
    }
    let p = byte_edition::padded(part);
    add_sixteen(x, y, &p)
}

// The rows of all groups, from the last to the first. What stands past the group's own places is added too, and not read later.
fn rows_of(m: usize, w: usize, c: usize, word: &[u8]) -> Rows
    requires good_in { GoodIn byte_limits m w c }
    requires word_len { length word.now ≡ m * w }
    ensures { HornerRows byte_edition w word.now 0 m result.plain result.weighted }
{
    let mut plain = [0u8; 16];
    let mut weighted = [0u8; 16];
    for g in (0..m).rev() {
        let a = g * w;
        let r = add_part(plain, weighted, &word[a..]);
        plain = r.plain;
        weighted = r.weighted;
    }
    Rows { plain, weighted }
}

// The inner product of the first w entries of x with the coefficients of the first sum across, and that of y with those of the second.
fn row_sums(x: [u8; 16], y: [u8; 16], w: usize, c: usize) -> Sums
    requires { (w ≤ 16) × (1 ≤ c) × (c ≤ 4) }
    ensures { result ≡ row_sums w c x y }
{
    let p = byte_edition::padded(&x[..w]);
    let q = byte_edition::padded(&y[..w]);
    let first = byte_edition::first_sum(&p, c - 1);
    let second = byte_edition::second_sum(&q, c - 1);
    Sums { first, second }
}

// The two sums across, of a good shape and a word of its length; 0 for others. By Horner's rule, so that there is one inner product for each.
pub fn across(m: usize, w: usize, c: usize, word: &[u8]) -> Sums
    ensures value { GoodIn byte_limits m w c → length word.now ≡ m * w → result ≡ across_of m w c word.now }
    ensures value_2 { (GoodIn byte_limits m w c → length word.now ≡ m * w → ⊥) → result ≡ no_sums }
{
    if shape::word_refusal::<Bytes>(m, w, c, word.len()).is_err() {
        return Sums {
            first: 0,
            second: 0,
        };
    }
    let r = rows_of(m, w, c, word);
    let x = r.plain;
    let y = r.weighted;
    row_sums(x, y, w, c)
}

// The test of all the equations of a word of a good shape's length. A shape or length that is refused is no codeword, and its group is 0.
pub fn test(m: usize, w: usize, c: usize, word: &[u8]) -> Tested
    ensures value { GoodIn byte_limits m w c → length word.now ≡ m * w → result ≡ tested_in byte_edition m w c word.now }
    ensures value_2 { (GoodIn byte_limits m w c → length word.now ≡ m * w → ⊥) → result ≡ not_tested }
{
    if shape::word_refusal::<Bytes>(m, w, c, word.len()).is_err() {
        return Tested {
            codeword: false,
            group: 0,
        };
    }
    let is_sound = |g| -> bool
        requires { g * w + w ≤ length word.now }
        ensures { PartTested byte_edition c (stretch w g word.entry.now) result }
    { local_zero(&word[g * w..g * w + w], c) };
    let is_zero_across = || -> bool
        requires { LentIn byte_limits m w c word.now }
        ensures { result ≡ (eqb (across_of m w c word.entry.now).first 0 && eqb (across_of m w c word.entry.now).second 0) }
    {
        let s = across(m, w, c, word);
        s.first == 0 && s.second == 0
    };
    Tested::by(m, is_sound, is_zero_across)
}
