// The sums of the two equations across of a sixteen-bit word, and whether all its equations are met.

#![tactic(auto)]

ghost use Rattle.std.specs.Prelude.{◌≡◌, false, ◌&&◌, eqb, ◌*◌, ◌+◌, ◌≤◌, ◌<◌, length, get_or, replicate};
ghost use Rattle.binary_field.specs.Xor.{◌⊕◌};
ghost use Rattle.binary_field.specs.Product.{product};
ghost use Rattle.code.specs.Edition.{raised};
ghost use Rattle.code.specs.Word.{group_sum, coefficient, second_coefficient};
ghost use Rattle.code.specs.Limits.{GoodIn};
ghost use Rattle.code.specs.Lent.{LentIn};
ghost use Rattle.code_engine.specs.Horner.{HornerRows};
ghost use Rattle.code_engine.specs.Tests.{tested_in, not_tested};
ghost use Rattle.code.specs.Stretch.{stretch};
ghost use Rattle.code_loops.specs.Broken.{PartTested};
ghost use Rattle.wide_shape.specs.Edition.{wide_limits, wide_edition};
ghost use Rattle.wide_across.specs.Fold.{Plus, TwicePlus};
ghost use Rattle.wide_across.specs.Pairs.{AllCoefficients, Paired, paired_sums, sums_of_pairs};
ghost use Rattle.wide_across.specs.Across.{wide_across};

use answers::Tested;
use wide_shape::{Shape, Wide};

// What the two equations across sum up to.
#[derive(Clone, Copy)]
pub struct Sums {
    pub first: u16,
    pub second: u16,
}

// 2^256: for the coefficients b^256, what 2 is for the coefficients b.
const TWO_TO_256: u16 = 2863;

// The sum of a stretch with the coefficients of its places, from its power sums: b with the factor 2, b^256 with 2^256.
fn weighted(sums: [u16; 6], c: usize, factor: u16) -> u16
    requires { c ≤ 4 }
    ensures { result ≡ get_or sums c 0 ⊕ product 16 69643 factor (get_or sums (c + 1) 0) }
{
    sums[c] ^ wide_field::product(factor, sums[c + 1])
}

// The coefficients b and b^256 of the first sixteen places, in turn, with one, two, three and four local checks.
const COEFFICIENTS: [u16; 128] = [
    3, 2862, 41646, 4970, 1395, 43290, 10088, 55887, 30367, 30469, 22375, 41206, 216, 7535, 30518,
    38649, 63320, 57479, 30276, 24900, 33535, 9573, 62195, 21746, 9754, 11762, 824, 45799, 54224,
    38208, 42045, 5624, 3, 2862, 20136, 2488, 35456, 30631, 25737, 16106, 63186, 60261, 51748,
    56613, 52329, 56169, 11635, 12315, 9951, 11575, 24405, 58812, 2133, 47504, 23386, 42983, 11389,
    15207, 56152, 10016, 34546, 27665, 59849, 22867, 3, 2862, 21859, 63754, 51103, 50693, 42841,
    47854, 7422, 2849, 40787, 14537, 50833, 52601, 54030, 38302, 39823, 28062, 24735, 30597, 18923,
    1160, 34615, 31572, 2465, 17820, 53018, 25527, 54418, 39025, 34335, 36009, 3, 2862, 23061,
    44224, 16674, 46771, 37340, 34525, 55746, 32344, 31336, 27692, 65502, 19995, 27777, 39562,
    62406, 48805, 2077, 47239, 5059, 21714, 25010, 38631, 34497, 35959, 50650, 40866, 35073, 14660,
    7139, 4303,
];

// The row of the 128 coefficients.
fn coefficients() -> [u16; 128]
    ensures { AllCoefficients result }
{
    COEFFICIENTS
}

// v times b; where v is 1 no product is made.
pub fn multiple(v: u16, b: u16) -> u16
    ensures { result ≡ product 16 69643 v b }
{
    if v == 1 { b } else { wide_field::product(v, b) }
}

// The sums of at most sixteen symbols with the coefficients of a row of pairs. Symbols that are 0 or 1 need no product.
fn sparse_sums(part: &[u16], row: &[u16]) -> Sums
    requires part_len_bound { length part.now ≤ 16 }
    requires row_len { length row.now ≡ 32 }
    ensures { result ≡ paired_sums (length part.now) part.now part.now row.now }
{
    let mut first: u16 = 0;
    let mut second: u16 = 0;
    for (j, v) in part.iter().enumerate() {
        if *v != 0 {
            let i = 2 * j;
            first ^= multiple(*v, row[i]);
            second ^= multiple(*v, row[i + 1]);
        }
    }
    Sums { first, second }
}

// The share of group g in the two sums across, from its stretch of at most sixteen places.
fn short_shares(part: &[u16], c: usize, g: usize) -> Sums
    requires part_len_bound { length part.now ≤ 16 }
    requires c_nonzero { (0 < c) × (c ≤ 4) }
    ensures first_value { result.first ≡ group_sum wide_edition (length part.now) part.now 0 (coefficient wide_edition c) }
    ensures second_value { result.second ≡ group_sum wide_edition (length part.now) part.now 0 (second_coefficient wide_edition c g) }
{
    let all = coefficients();
    let a = (c - 1) * 32;
    let e = a + 32;
    let s = sparse_sums(part, &all[a..e]);
    let second = wide_field::doubled(s.second, g);
    Sums {
        first: s.first,
        second,
    }
}

// The share of group g in the two sums across, from its stretch; zeros for more than 256 places or c above 4.
pub fn group_sums(part: &[u16], c: usize, g: usize) -> Sums
    ensures first_value { length part.now ≤ 256 → c ≤ 4 → result.first ≡ group_sum wide_edition (length part.now) part.now 0 (coefficient wide_edition c) }
    ensures second_value { length part.now ≤ 256 → c ≤ 4 → result.second ≡ group_sum wide_edition (length part.now) part.now 0 (second_coefficient wide_edition c g) }
    ensures first_value_2 { (length part.now ≤ 256 → c ≤ 4 → ⊥) → (result.first ≡ 0) × (result.second ≡ 0) }
{
    if Shape::MAX_CHECKS < c {
        return Sums {
            first: 0,
            second: 0,
        };
    }
    if Shape::MAX_WIDTH < part.len() {
        return Sums {
            first: 0,
            second: 0,
        };
    }
    if part.len() <= 16 {
        if 0 < c {
            return short_shares(part, c, g);
        }
    }
    let sums = wide_sums::power_sums(part, c + 2);
    let first = weighted(sums, c, 2);
    let s = weighted(sums, c, TWO_TO_256);
    let second = wide_field::doubled(s, g);
    Sums { first, second }
}

// Adds a group's stretch to x, and to twice y.
fn fold(part: &[u16], x: &mut [u16], y: &mut [u16])
    requires x_len { length x.old ≡ length part.now }
    requires y_len { length y.old ≡ length part.now }
    ensures plus { Plus part.now x.old x.new }
    ensures twice_plus { TwicePlus part.now y.old y.new }
{
    for (i, v) in part.iter().enumerate() {
        x[i] ^= *v;
        y[i] = wide_field::double(y[i]) ^ *v;
    }
}

// Adds the stretches of all groups up in x and, group g times 2^g, in y, both of which come as zeros: from the last group to the first, each turn
// doubles what is in y.
fn fold_groups(m: usize, w: usize, c: usize, word: &[u16], x: &mut [u16], y: &mut [u16])
    requires good_in { GoodIn wide_limits m w c }
    requires word_len { length word.now ≡ m * w }
    requires x_value { (x.old ≡ replicate w 0) × (y.old ≡ replicate w 0) }
    ensures horner_rows { HornerRows wide_edition w word.now 0 m x.new y.new }
    ensures x_len { (length x.new ≡ w) × (length y.new ≡ w) }
{
    for g in (0..m).rev() {
        let start = g * w;
        let end = start + w;
        fold(&word[start..end], x, y);
    }
}

// The two sums across, by way of the groups added up in x and y, which come as zeros.
fn folded_sums(m: usize, w: usize, c: usize, word: &[u16], x: &mut [u16], y: &mut [u16]) -> Sums
    requires good_in { GoodIn wide_limits m w c }
    requires word_len { length word.now ≡ m * w }
    requires x_value { (x.old ≡ replicate w 0) × (y.old ≡ replicate w 0) }
    ensures { result ≡ wide_across m w c word.now }
{
    fold_groups(m, w, c, word, x, y);
    let p = wide_sums::power_sums(x, c + 2);
    let q = wide_sums::power_sums(y, c + 2);
    let first = weighted(p, c, 2);
    let second = weighted(q, c, TWO_TO_256);
    Sums { first, second }
}

// The symbols of x and y in turn, followed by zeros.
fn pairs(x: &[u16], y: &[u16]) -> [u16; 32]
    requires x_len_bound { length x.now ≤ 16 }
    requires y_len { length y.now ≡ length x.now }
    ensures { Paired x.now y.now result }
{
    let mut z = [0u16; 32];
    for i in 0..x.len() {
        let j = 2 * i;
        z[j] = x[i];
        z[j + 1] = y[i];
    }
    z
}

// The sum of the first symbols of w pairs, and the sum of the second.
fn pair_sums(z: &[u16], w: usize) -> Sums
    requires w_bound { w ≤ 16 }
    requires z_len { length z.now ≡ 32 }
    ensures { result ≡ sums_of_pairs w z.now }
{
    let mut first: u16 = 0;
    let mut second: u16 = 0;
    for i in 0..w {
        let j = 2 * i;
        first ^= z[j];
        second ^= z[j + 1];
    }
    Sums { first, second }
}

// The sum of x with the coefficients b and the sum of y with b^256, of at most sixteen places, in one pass over their symbols in turn: eight at a
// time are one step of the vector unit.
fn paired_sums(c: usize, x: &[u16], y: &[u16]) -> Sums
    requires c_nonzero { (0 < c) × (c ≤ 4) }
    requires x_len_bound { length x.now ≤ 16 }
    requires y_len { length y.now ≡ length x.now }
    ensures first_value { result.first ≡ group_sum wide_edition (length x.now) x.now 0 (coefficient wide_edition c) }
    ensures second_value { result.second ≡ group_sum wide_edition (length x.now) y.now 0 (λ j. raised wide_edition (coefficient wide_edition c j) 256) }
{
    let w = x.len();
    let n = (w + 3) / 4 * 8;
    let all = coefficients();
    let a = (c - 1) * 32;
    let e = a + n;
    let mut z = pairs(x, y);
    wide_sums::multiply(&mut z[..n], &all[a..e]);
    pair_sums(&z, w)
}

// The two sums across of a word with groups of at most sixteen places, by way of the groups added up in x and y, which come as zeros.
fn short_across(m: usize, w: usize, c: usize, word: &[u16], x: &mut [u16], y: &mut [u16]) -> Sums
    requires good_in { GoodIn wide_limits m w c }
    requires word_len { length word.now ≡ m * w }
    requires w_bound { w ≤ 16 }
    requires x_value { (x.old ≡ replicate w 0) × (y.old ≡ replicate w 0) }
    ensures { result ≡ wide_across m w c word.now }
{
    fold_groups(m, w, c, word, x, y);
    paired_sums(c, x, y)
}

// The two sums across of a word of a good shape's length.
pub fn across(m: usize, w: usize, c: usize, word: &[u16]) -> Sums
    requires { LentIn wide_limits m w c word.now }
    ensures { result ≡ wide_across m w c word.now }
{
    if w <= 16 {
        let mut u = [0u16; 16];
        let mut v = [0u16; 16];
        return short_across(m, w, c, word, &mut u[..w], &mut v[..w]);
    }
    let mut x = [0u16; Shape::MAX_WIDTH];
    let mut y = [0u16; Shape::MAX_WIDTH];
    folded_sums(m, w, c, word, &mut x[..w], &mut y[..w])
}

// The test of all the equations of a word of a good shape's length. A shape or length that is refused is no codeword, and its group is 0.
pub fn test(m: usize, w: usize, c: usize, word: &[u16]) -> Tested
    ensures value { GoodIn wide_limits m w c → length word.now ≡ m * w → result ≡ tested_in wide_edition m w c word.now }
    ensures value_2 { (GoodIn wide_limits m w c → length word.now ≡ m * w → ⊥) → result ≡ not_tested }
{
    if shape::word_refusal::<Wide>(m, w, c, word.len()).is_err() {
        return Tested {
            codeword: false,
            group: 0,
        };
    }
    let is_sound = |g| -> bool
        requires { g * w + w ≤ length word.now }
        ensures { PartTested wide_edition c (stretch w g word.entry.now) result }
    { wide_sums::local_zero(&word[g * w..g * w + w], c) };
    let is_zero_across = || -> bool
        requires { LentIn wide_limits m w c word.now }
        ensures { result ≡ (eqb (wide_across m w c word.entry.now).first 0 && eqb (wide_across m w c word.entry.now).second 0) }
    {
        let s = across(m, w, c, word);
        s.first == 0 && s.second == 0
    };
    Tested::by(m, is_sound, is_zero_across)
}
