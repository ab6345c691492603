// The field of 65,536 elements: doubling, the product by integer products and by shifts, and the 256 locators.

#![tactic(auto)]

ghost use Rattle.std.specs.Prelude.{◌≡◌, ◌%◌, ◌<◌, ◌≤◌, length, get_or};
ghost use Rattle.binary_field.specs.Xor.{◌⊕◌};
ghost use Rattle.binary_field.specs.Product.{double, product};
ghost use Rattle.binary_field.specs.Sum.{sum_below};
ghost use Rattle.binary_field.specs.Power.{power};
ghost use Rattle.wide_field.specs.Sixteenfold.{sixteenfold};
ghost use Rattle.wide_field.specs.CarryLess.{carry_less, quotient, reduced};
ghost use Rattle.wide_field.specs.LocatorRow.{locator_row};

// What is left of 69643, if the bit that a doubling shifts out is set.
fn reduction(a: u16) -> u16
    ensures value { a < 32768 → result ≡ 0 }
    ensures value_2 { 32768 ≤ a → result ≡ 4107 }
{
    if a < 32768 { 0 } else { 4107 }
}

// Twice a: a shift left by one, and the masked exclusive or.
pub fn double(a: u16) -> u16
    ensures { result ≡ double 16 69643 a }
{
    (a << 1) ^ reduction(a)
}

// Sixteen times a: a shift left by four, and what the bits shifted out stand for.
fn sixteenfold(a: u16) -> u16
    ensures { result ≡ sixteenfold a }
{
    let h = a / 4096;
    (a << 4) ^ (h ^ ((h << 1) ^ ((h << 3) ^ (h << 12))))
}

// r and a times the number of the lowest four bits of b.
fn four_bits(r: u16, a: u16, b: u16) -> u16
    ensures { result ≡ r ⊕ product 16 69643 a (b % 16) }
{
    let mut sum = r;
    let mut shifted = a;
    let mut rest = b % 16;
    for _ in 0..4usize {
        if rest % 2 == 1 {
            sum ^= shifted;
        }
        shifted = double(shifted);
        rest /= 2;
    }
    sum
}

// The product by shifts, four bits of b at a time from the highest on: the form for loops over rows, from which the compiler makes vector code.
// The four multiples of a are the same each time, and worked out once.
pub fn shifted_product(a: u16, b: u16) -> u16
    ensures { result ≡ product 16 69643 a b }
{
    let p = four_bits(0, a, b / 4096);
    let q = four_bits(sixteenfold(p), a, b / 256);
    let s = four_bits(sixteenfold(q), a, b / 16);
    four_bits(sixteenfold(s), a, b)
}

// The carry-less product, by nine products of numbers whose binary digits stand three places apart: six digits at most meet in one place, and
// no sum of them carries into the next place that is read.
fn carry_less(a: u16, b: u16) -> u32
    ensures { result ≡ carry_less a b }
{
    let x = u32::from(a);
    let y = u32::from(b);
    let x0 = x & 37449;
    let x1 = x & 9362;
    let x2 = x & 18724;
    let y0 = y & 37449;
    let y1 = y & 9362;
    let y2 = y & 18724;
    let r0 = ((x0 * y0) ^ ((x1 * y2) ^ (x2 * y1))) & 1227133513;
    let r1 = ((x0 * y1) ^ ((x1 * y0) ^ (x2 * y2))) & 2454267026;
    let r2 = ((x0 * y2) ^ ((x1 * y1) ^ (x2 * y0))) & 613566756;
    r0 ^ (r1 ^ r2)
}

// The quotient by 69643 of a number of at most 31 binary digits, of which h has those from 16 on.
fn quotient(h: u32) -> u32
    requires { h < 65536 }
    ensures value { result ≡ quotient h }
    ensures upper_bound { result < 65536 }
{
    h ^ ((h / 16) ^ ((h / 256) ^ ((h / 4096) ^ (h / 8192))))
}

// A number of at most 31 binary digits modulo the polynomial 69643.
fn reduced(p: u32) -> u16
    ensures { result ≡ reduced p }
{
    let q = quotient(p / 65536);
    let r = p ^ (q ^ ((q * 2) ^ ((q * 8) ^ (q * 4096))));
    (r % 65536) as u16
}

// The product of two symbols, by integer products.
pub fn product(a: u16, b: u16) -> u16
    ensures { result ≡ product 16 69643 a b }
{
    reduced(carry_less(a, b))
}

// 2 to the power n times a, by doubling.
pub fn doubled(a: u16, n: usize) -> u16
    ensures { result ≡ product 16 69643 (power 16 69643 2 n) a }
{
    let mut r = a;
    for _ in 0..n {
        r = double(r);
    }
    r
}

// The sum of all symbols of u.
pub fn sum(u: &[u16]) -> u16
    ensures { result ≡ sum_below (length u.now) (λ i. get_or u.now i 0) }
{
    let mut r: u16 = 0;
    for x in u {
        r ^= *x;
    }
    r
}

// The locators, in place order.
const LOCATORS: [u16; 256] = [
    1, 5726, 23160, 2664, 42880, 63183, 5760, 45125, 57482, 45313, 20692, 44146, 2860, 6110, 60348,
    19832, 3049, 26, 60327, 45185, 57616, 60258, 42821, 57611, 5787, 19900, 2675, 23161, 7222,
    65016, 64679, 45312, 18058, 62986, 324, 45150, 7539, 23544, 48044, 57488, 23206, 57429, 19810,
    57422, 45211, 2743, 23523, 18005, 2665, 45534, 44215, 7400, 6085, 5701, 42881, 57489, 19704,
    47661, 18186, 18382, 18004, 7223, 60326, 42719, 47976, 57610, 197, 6084, 27, 65017, 60153,
    60280, 19682, 20874, 63371, 42718, 44342, 47986, 2733, 45124, 63188, 60281, 23228, 3058, 64995,
    350, 23545, 44530, 47848, 20686, 18389, 48045, 63182, 222, 59965, 60130, 5761, 42523, 47858,
    47977, 63316, 23229, 7596, 42907, 2870, 64633, 23357, 44136, 57483, 42847, 2732, 42522, 44204,
    57617, 64828, 64829, 60259, 45339, 47987, 7411, 59964, 64700, 19705, 44147, 7538, 19878, 57812,
    60152, 64806, 5786, 23522, 20491, 20497, 48054, 2871, 59943, 325, 42496, 18187, 20880, 7212,
    5727, 19494, 20496, 44520, 20815, 57423, 42693, 20687, 20875, 57813, 64678, 42846, 7410, 64610,
    42692, 18065, 3059, 60349, 23334, 20881, 2674, 19495, 17998, 63376, 23335, 18383, 20490, 17999,
    57806, 351, 19879, 63370, 45184, 63310, 45338, 44333, 18059, 57428, 23356, 47670, 47859, 44343,
    44332, 20693, 47660, 20820, 7606, 19516, 48055, 7529, 45151, 2861, 384, 45508, 18192, 44137,
    63189, 64807, 196, 410, 23139, 63377, 19833, 7607, 23138, 57807, 5889, 6111, 64994, 5888, 385,
    42906, 7528, 42497, 20821, 3048, 5700, 45535, 47849, 18064, 7597, 45509, 20814, 62993, 64701,
    23207, 62987, 5914, 59942, 5915, 64632, 19811, 62992, 60131, 223, 64611, 45210, 7401, 411,
    19517, 44521, 18193, 47671, 44205, 63311, 42820, 63317, 19683, 18388, 44531, 44214, 2742,
    19901, 7213, 0,
];

// The row of the locators.
pub fn locators() -> [u16; 256]
    ensures { result ≡ locator_row }
{
    LOCATORS
}
