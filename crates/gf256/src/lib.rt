// The field of bytes: doubling, the product by shifts, inverses, powers and the locators.

#![tactic(auto)]

pub mod locators;
mod rows;

ghost use Rattle.std.specs.Prelude.{◌≡◌, ◌<◌, ◌≤◌, min, length, get_or};
ghost use Rattle.binary_field.specs.Product.{double, product};
ghost use Rattle.binary_field.specs.Sum.{sum_below, inner_product};
ghost use Rattle.binary_field.specs.Power.{power};
ghost use Rattle.binary_field.specs.Inverse.{inverse};

// What is left of 285, if the bit that a doubling shifts out is set.
fn reduction(a: u8) -> u8
    ensures value { a < 128 → result ≡ 0 }
    ensures value_2 { 128 ≤ a → result ≡ 29 }
{
    if a < 128 { 0 } else { 29 }
}

// Twice a: a shift left by one, and the masked exclusive or.
pub fn double(a: u8) -> u8
    ensures { result ≡ double 8 285 a }
{
    (a << 1) ^ reduction(a)
}

// The product by shifts: the sum over the set bits of b of a times that power of two.
pub fn shifted_product(a: u8, b: u8) -> u8
    ensures { result ≡ product 8 285 a b }
{
    let mut r: u8 = 0;
    let mut x = a;
    let mut y = b;
    for _ in 0..8u8 {
        if y % 2 == 1 {
            r ^= x;
        }
        x = double(x);
        y /= 2;
    }
    r
}

// a to the power 16: it is linear in a, so the sum of what the low four bits and the high four bits give.
fn sixteenth(a: u8) -> u8
    ensures { result ≡ power 8 285 a 16 }
{
    rows::sixteenth_low(a) ^ rows::sixteenth_high(a)
}

// The inverse of a, and 0 for 0: of a locator by one row, else a to the power 16 over the norm of a, which is a to the power 17 and a locator.
pub fn inverse(a: u8) -> u8
    ensures { result ≡ inverse 8 285 a }
{
    if rows::locator_like(a) == a {
        return rows::locator_inverse(a);
    }
    let conjugate = sixteenth(a);
    let norm = shifted_product(a, conjugate);
    shifted_product(conjugate, rows::locator_inverse(norm))
}

// a to the power n; 0 to the power 0 is 1.
pub fn power(a: u8, n: usize) -> u8
    ensures { result ≡ power 8 285 a n }
{
    let mut r: u8 = 1;
    for _ in 0..n {
        r = shifted_product(a, r);
    }
    r
}

// 2 to the power n, by doubling.
pub fn power_of_two(n: usize) -> u8
    ensures { result ≡ power 8 285 2 n }
{
    let mut r: u8 = 1;
    for _ in 0..n {
        r = double(r);
    }
    r
}

// The sum of all bytes of u.
pub fn sum(u: &[u8]) -> u8
    ensures { result ≡ sum_below (length u.now) (λ i. get_or u.now i 0) }
{
    let mut r: u8 = 0;
    for x in u {
        r ^= *x;
    }
    r
}

// The inner product of u and v; a v that is too short counts as followed by zeros.
pub fn dot(u: &[u8], v: &[u8]) -> u8
    ensures { result ≡ inner_product 8 285 (length u.now) u.now v.now }
{
    let mut r: u8 = 0;
    for (x, y) in u.iter().zip(v) {
        r ^= shifted_product(*x, *y);
    }
    r
}
