// The power sums of a group's stretch, and whether its local equations are met.

#![tactic(auto)]

ghost use Rattle.std.specs.Prelude.{◌≡◌, false, ◌≤◌, ◌<◌, eqb, length, get_or, replicate};
ghost use Rattle.std.specs.List.{list_all};
ghost use Rattle.code_engine.specs.Padded.{Padded};
ghost use Rattle.code.specs.Word.{is_local};
ghost use Rattle.wide_shape.specs.Edition.{wide_edition};
ghost use Rattle.wide_sums.specs.PowerSums.{PowerSums, EachTimes, IsRow};

use wide_shape::Shape;

// Each symbol of x times that of a row that is as long; with another row x stays as it is.
pub fn multiply(x: &mut [u16], row: &[u16])
    ensures each_times { length row.now ≡ length x.old → EachTimes x.old row.now x.new }
    ensures x_len_unchanged { length x.new ≡ length x.old }
    ensures x_unchanged { (length row.now ≡ length x.old → ⊥) → x.new ≡ x.old }
{
    if row.len() != x.len() {
        return;
    }
    for (i, a) in x.iter_mut().enumerate() {
        *a = wide_field::shifted_product(*a, row[i]);
    }
}

// The first n power sums of a stretch that is lent to be worked on, with the locators of its places.
fn gather(x: &mut [u16], row: &[u16], n: usize) -> [u16; 6]
    requires row_len { length row.now ≡ length x.old }
    requires row { IsRow (length x.old) row.now }
    requires n_bound { n ≤ 6 }
    ensures { PowerSums x.old n result }
{
    let mut sums = [0u16; 6];
    sums[0] = wide_field::sum(x);
    for e in 1..n {
        multiply(x, row);
        sums[e] = wide_field::sum(x);
    }
    sums
}

// The first n power sums of a stretch, worked on in x.
fn gather_in(part: &[u16], x: &mut [u16], n: usize) -> [u16; 6]
    requires x_len { length x.old ≡ length part.now }
    requires part_len_bound { length part.now ≤ 256 }
    requires n_bound { n ≤ 6 }
    ensures { PowerSums part.now n result }
{
    let w = part.len();
    let row = wide_field::locators();
    buffers::copy(part, x);
    gather(x, &row[..w], n)
}

// The locators of the first sixteen places.
const SHORT_LOCATORS: [u16; 16] = [
    1, 5726, 23160, 2664, 42880, 63183, 5760, 45125, 57482, 45313, 20692, 44146, 2860, 6110, 60348,
    19832,
];

// The row of the first sixteen locators.
fn short_locators() -> [u16; 16]
    ensures { (length result ≡ 16) × IsRow 16 result }
{
    SHORT_LOCATORS
}

// A stretch of at most sixteen places, followed by zeros up to sixteen.
fn padded(part: &[u16]) -> [u16; 16]
    requires { length part.now ≤ 16 }
    ensures { Padded part.now result }
{
    let w = part.len();
    let mut x = [0u16; 16];
    buffers::copy(part, &mut x[..w]);
    x
}

// The first n power sums of a stretch of at most sixteen places, padded: loops over sixteen are fast.
fn short_sums(part: &[u16], n: usize) -> [u16; 6]
    requires part_len_bound { length part.now ≤ 16 }
    requires n_bound { n ≤ 6 }
    ensures { PowerSums part.now n result }
{
    let mut x = padded(part);
    let row = short_locators();
    gather(&mut x, &row, n)
}

// The first n power sums of a group's stretch; zeros for more than 256 places or n above 6.
// Free: the entries from n on, of which holds that they are symbols; no caller reads them.
pub fn power_sums(part: &[u16], n: usize) -> [u16; 6]
    ensures power_sums { length part.now ≤ 256 → n ≤ 6 → PowerSums part.now n result }
    ensures value { (length part.now ≤ 256 → n ≤ 6 → ⊥) → result ≡ replicate 6 0 }
{
    let none = [0u16; 6];
    if 6 < n {
        return none;
    }
    if Shape::MAX_WIDTH < part.len() {
        return none;
    }
    if n == 1 {
        let s = wide_field::sum(part);
        return [s, 0, 0, 0, 0, 0];
    }
    let w = part.len();
    if w <= 16 {
        return short_sums(part, n);
    }
    let mut x = [0u16; Shape::MAX_WIDTH];
    gather_in(part, &mut x[..w], n)
}

// Whether all of the sums are zero.
fn all_zero(sums: &[u16]) -> bool
    ensures { result ≡ list_all (λ s. eqb s 0) sums.now }
{
    sums.iter().all(|s| *s == 0)
}

// Whether the first c local sums of one group's stretch are zero; false for more than 256 places or c above 4.
pub fn local_zero(part: &[u16], c: usize) -> bool
    ensures value { length part.now ≤ 256 → c ≤ 4 → result ≡ is_local wide_edition (length part.now) c part.now 0 }
    ensures value_2 { (length part.now ≤ 256 → c ≤ 4 → ⊥) → result ≡ false }
{
    if Shape::MAX_CHECKS < c {
        return false;
    }
    if Shape::MAX_WIDTH < part.len() {
        return false;
    }
    if c == 1 {
        return wide_field::sum(part) == 0;
    }
    let sums = power_sums(part, c);
    all_zero(&sums[..c])
}
