// The lost symbols of a group from its power sums, and one group filled.

#![tactic(auto)]

ghost use Rattle.std.specs.Prelude.{◌≡◌, ◌≤◌, ◌<◌, ℕ, get_or, replicate, length};
ghost use Rattle.binary_field.specs.Product.{product};
ghost use Rattle.binary_field.specs.Power.{power};
ghost use Rattle.binary_field.specs.Inverse.{inverse};
ghost use Rattle.wide_solve.specs.Small.{digits, IsSmall, inverse_row};
ghost use Rattle.wide_solve.specs.Norm.{conjugate_row};
ghost use Rattle.wide_solve.specs.Peel.{HasSums, Apart};
ghost use Rattle.code_engine.specs.Filled.{FilledIn};
ghost use Rattle.code_engine.specs.Positions.{Inside};
ghost use Rattle.code_engine.specs.Placed.{placed};
ghost use Rattle.wide_field.specs.LocatorRow.{locator_row};
ghost use Rattle.wide_shape.specs.Edition.{wide_edition};
ghost use Rattle.wide_solve.specs.Column.{column_of};
ghost use Rattle.wide_solve.specs.One.{FilledAt};

use wide_shape::Shape;

// The inverses of the small field's elements, by eight digits of each.
const INVERSES: [u16; 256] = [
    0, 1, 20820, 23207, 57428, 42496, 2733, 20814, 64610, 45184, 45313, 62992, 45534, 23545, 62987,
    45508, 42907, 57423, 65016, 20821, 64829, 5726, 64633, 5786, 19879, 23523, 7401, 7606, 47977,
    45150, 45151, 18065, 64678, 64700, 44531, 17998, 44333, 19683, 23160, 5915, 23357, 44343,
    44205, 20497, 47660, 64806, 2743, 2665, 20687, 18382, 60130, 60259, 23161, 19900, 60258, 20881,
    18186, 45338, 47671, 42719, 64995, 23522, 18064, 47976, 20686, 44137, 42718, 2860, 64679, 2871,
    7597, 7411, 20491, 47849, 42693, 63317, 47987, 57429, 57806, 45535, 410, 3048, 19810, 57610,
    64994, 19878, 44520, 60349, 60153, 64807, 23335, 5760, 351, 350, 64701, 2870, 48054, 196,
    62993, 42820, 47859, 3058, 59965, 59942, 48044, 63377, 42523, 44521, 23356, 20874, 44136,
    18383, 45210, 384, 7213, 64828, 60280, 63311, 19682, 45124, 63188, 18187, 45125, 44332, 2742,
    5889, 5701, 48045, 5787, 57813, 45211, 60326, 63189, 45339, 63371, 3059, 57483, 63316, 44342,
    20875, 7400, 27, 42906, 42847, 5761, 18389, 2861, 47670, 47986, 42497, 324, 7410, 3049, 57489,
    23229, 45185, 7539, 20490, 18004, 6110, 60281, 20692, 5888, 2664, 6084, 19832, 62986, 7223,
    63183, 17999, 47848, 7538, 23334, 18388, 20693, 63310, 44204, 44147, 60348, 42522, 60131,
    20880, 64632, 57812, 18059, 20815, 42692, 57482, 23544, 57807, 57617, 222, 197, 19705, 63182,
    44530, 48055, 19704, 5727, 7212, 7529, 19811, 325, 7596, 19901, 5914, 23139, 44214, 26, 7607,
    223, 19494, 42846, 57422, 44215, 42881, 18192, 6111, 63376, 5700, 60152, 47661, 57616, 19495,
    64611, 23228, 19517, 6085, 47858, 63370, 45509, 7222, 59943, 2674, 19833, 19516, 18058, 2732,
    23138, 42880, 18005, 18193, 2675, 59964, 44146, 20496, 65017, 23206, 7528, 57611, 385, 60327,
    42821, 45312, 411, 57488,
];

// The row of those inverses.
fn inverses() -> [u16; 256]
    ensures { result ≡ inverse_row }
{
    INVERSES
}

// u divided by an element of the small field other than 0.
fn quotient(u: u16, a: u16, row: &[u16]) -> u16
    requires { row.now ≡ inverse_row }
    ensures value { result ≡ product 16 69643 u (get_or inverse_row (digits a) 0) }
    ensures result_value { IsSmall a → (a ≡ 0 → ⊥) → product 16 69643 a result ≡ u }
{
    let d = usize::from((a ^ (a >> 7)) % 256);
    wide_field::product(u, row[d])
}

// The symbols of two places.
fn two(x: [u16; 4], s: [u16; 6], row: &[u16]) -> [u16; 4]
    requires { row.now ≡ inverse_row }
    ensures { Apart 2 (λ i. get_or x i 0) → HasSums 16 69643 2 (λ i. get_or x i 0) (λ i. get_or result i 0) (λ e. get_or s e 0) }
{
    let y = x[1];
    let first = s[0];
    let a = s[1] ^ wide_field::product(y, first);
    let p = quotient(a, x[0] ^ y, row);
    [p, first ^ p, 0, 0]
}

// The symbols of three.
fn three(x: [u16; 4], s: [u16; 6], row: &[u16]) -> [u16; 4]
    requires { row.now ≡ inverse_row }
    ensures { Apart 3 (λ i. get_or x i 0) → HasSums 16 69643 3 (λ i. get_or x i 0) (λ i. get_or result i 0) (λ e. get_or s e 0) }
{
    let y = x[2];
    let first = s[0];
    let a = s[1] ^ wide_field::product(y, first);
    let b = s[2] ^ wide_field::product(y, s[1]);
    let u = two(x, [a, b, 0, 0, 0, 0], row);
    let p = quotient(u[0], x[0] ^ y, row);
    let q = quotient(u[1], x[1] ^ y, row);
    [p, q, first ^ (p ^ q), 0]
}

// The symbols of four.
fn four(x: [u16; 4], s: [u16; 6], row: &[u16]) -> [u16; 4]
    requires { row.now ≡ inverse_row }
    ensures { Apart 4 (λ i. get_or x i 0) → HasSums 16 69643 4 (λ i. get_or x i 0) (λ i. get_or result i 0) (λ e. get_or s e 0) }
{
    let y = x[3];
    let first = s[0];
    let a = s[1] ^ wide_field::product(y, first);
    let b = s[2] ^ wide_field::product(y, s[1]);
    let c = s[3] ^ wide_field::product(y, s[2]);
    let u = three(x, [a, b, c, 0, 0, 0], row);
    let p = quotient(u[0], x[0] ^ y, row);
    let q = quotient(u[1], x[1] ^ y, row);
    let r = quotient(u[2], x[2] ^ y, row);
    [p, q, r, first ^ ((p ^ q) ^ r)]
}

// The symbols of t places with the locators x that have the power sums s; zeros for t above 4.
// Free: the entries from t on, and all four where two of the first t locators are the same or differ by what is not in the small field; of these
// holds that they are symbols.
pub fn symbols(x: [u16; 4], s: [u16; 6], t: usize) -> [u16; 4]
    ensures has_sums { t ≤ 4 → Apart t (λ i. get_or x i 0) → HasSums 16 69643 t (λ i. get_or x i 0) (λ i. get_or result i 0) (λ e. get_or s e 0) }
    ensures value { 4 < t → result ≡ replicate 4 0 }
{
    if t == 1 {
        return [s[0], 0, 0, 0];
    }
    // One table for the three: each that is made in place takes 512 bytes of stack of its own.
    let row = inverses();
    match t {
        2 => two(x, s, &row),
        3 => three(x, s, &row),
        4 => four(x, s, &row),
        _ => [0; 4],
    }
}

// The 256th powers of 1, 2, 4, ..
const CONJUGATES: [u16; 16] = [
    1, 2863, 5790, 333, 2680, 57648, 90, 5632, 6016, 20322, 24230, 42285, 4420, 15404, 19244, 35816,
];

fn conjugates() -> [u16; 16]
    ensures { result ≡ conjugate_row }
{
    CONJUGATES
}

// a to the power 256: it is linear in a, so the sum of what the set bits of a give.
fn conjugate(a: u16) -> u16
    ensures { result ≡ power 16 69643 a 256 }
{
    let row = conjugates();
    let mut sum: u16 = 0;
    let mut rest = a;
    for x in row {
        if rest % 2 == 1 {
            sum ^= x;
        }
        rest /= 2;
    }
    sum
}

// The inverse of a, and 0 for 0: a to the power 256 over the norm of a, which is a to the power 257 and in the small field.
pub fn inverse(a: u16) -> u16
    ensures { result ≡ inverse 16 69643 a }
{
    let b = conjugate(a);
    let norm = wide_field::product(a, b);
    let row = inverses();
    quotient(b, norm, &row)
}

// Writes the symbol i of u at position at[i], for each i below t.
fn place(part: &mut [u16], at: [usize; 4], u: [u16; 4], t: usize)
    requires { (t ≤ 4) × Inside (length part.old) at t }
    ensures { part.new ≡ placed part.old at (column_of u) t }
{
    for i in 0..t {
        part[at[i]] = u[i];
    }
}

// The locator of place j, from the row of all; 0 from the 256th on.
fn locator(row: &[u16], j: usize) -> u16
    requires { row.now ≡ locator_row }
    ensures { result ≡ get_or locator_row j 0 }
{
    if j < Shape::MAX_WIDTH { row[j] } else { 0 }
}

// The locators of four places.
fn locators_of(at: [usize; 4]) -> [u16; 4]
    ensures { (i : ℕ) → i < 4 → get_or result i 0 ≡ get_or locator_row (get_or at i 0) 0 }
{
    let row = wide_field::locators();
    at.map(|j| locator(&row, j))
}

// Writes the sum of the other symbols at position p; what stood there does not count.
fn fill_one(part: &mut [u16], p: usize)
    requires { p < length part.old }
    ensures { FilledAt p part.old part.new }
{
    part[p] = 0;
    let s = wide_field::sum(part);
    part[p] = s;
}

// Fills the lost places, if at most four of at most 256 are lost; what stood there does not count. Else nothing changes.
pub fn fill(part: &mut [u16], marks: &[u8])
    ensures { FilledIn wide_edition marks.now part.old part.new }
{
    if Shape::MAX_WIDTH < part.len() {
        return;
    }
    if marks.len() != part.len() {
        return;
    }
    let erasures = erasures::find(marks);
    let t = erasures.count;
    if Shape::MAX_CHECKS < t {
        return;
    }
    if t == 0 {
        return;
    }
    let at = erasures.at;
    if t == 1 {
        let p = at[0];
        fill_one(part, p);
        return;
    }
    let none = [0u16; 4];
    place(part, at, none, t);
    let sums = wide_sums::power_sums(part, t);
    let x = locators_of(at);
    let u = symbols(x, sums, t);
    place(part, at, u, t);
}
