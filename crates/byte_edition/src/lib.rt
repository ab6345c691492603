// The edition of bytes: its rows of coefficients as constants, and inner products with them.

#![tactic(auto)]

ghost use Rattle.std.specs.Prelude.{◌≡◌, min, length, get_or};
ghost use Rattle.binary_field.specs.Sum.{inner_product};
ghost use Rattle.byte_edition.specs.Rows.{power_rows, first_rows, second_rows, no_row};
ghost use Rattle.code_engine.specs.Padded.{Padded};

// The locators to the powers 0 to 3. Each row is a constant of its own, so that one row alone is read.
const POWERS_0: [u8; 16] = [1, 1, 1, 1, 1, 1, 1, 1, 1, 1, 1, 1, 1, 1, 1, 1];

const POWERS_1: [u8; 16] = [
    1, 152, 78, 10, 153, 214, 68, 147, 79, 146, 215, 220, 221, 69, 11, 0,
];

const POWERS_2: [u8; 16] = [
    1, 78, 153, 68, 79, 215, 221, 11, 152, 10, 214, 147, 146, 220, 69, 0,
];

const POWERS_3: [u8; 16] = [
    1, 10, 68, 146, 221, 1, 10, 68, 146, 221, 1, 10, 68, 146, 221, 0,
];

// b for c from 1 to 4.
const FIRST_1: [u8; 16] = [
    3, 4, 97, 130, 7, 101, 227, 133, 98, 134, 102, 231, 228, 224, 129, 0,
];

const FIRST_2: [u8; 16] = [
    3, 90, 17, 125, 232, 213, 201, 131, 161, 173, 212, 135, 26, 229, 226, 0,
];

const FIRST_3: [u8; 16] = [
    3, 37, 218, 53, 240, 176, 51, 206, 14, 85, 178, 28, 80, 169, 120, 0,
];

const FIRST_4: [u8; 16] = [
    3, 40, 252, 223, 41, 101, 144, 244, 253, 70, 102, 184, 8, 34, 111, 0,
];

// b^16 for c from 1 to 4.
const SECOND_1: [u8; 16] = [
    77, 157, 37, 205, 208, 184, 232, 29, 104, 80, 245, 117, 56, 165, 128, 0,
];

const SECOND_2: [u8; 16] = [
    77, 140, 94, 161, 227, 155, 31, 204, 125, 166, 154, 81, 85, 57, 233, 0,
];

const SECOND_3: [u8; 16] = [
    77, 97, 13, 62, 250, 35, 239, 207, 151, 26, 111, 132, 134, 59, 61, 0,
];

const SECOND_4: [u8; 16] = [
    77, 187, 33, 145, 186, 184, 222, 103, 32, 8, 245, 101, 70, 177, 178, 0,
];

const NONE: [u8; 16] = [0; 16];

// The first sixteen bytes of a part, followed by zeros where it has fewer.
pub fn padded(part: &[u8]) -> [u8; 16]
    ensures { Padded part.now result }
{
    let n = part.len().min(16);
    let mut x = [0u8; 16];
    buffers::copy_from_slice(&mut x[..n], &part[..n]);
    x
}

// The locators of the sixteen places to the power e, for e below 4; zeros for any other e.
#[tactic(auto, unfolding(crate::specs::Rows::power_rows))]
pub fn power_row(e: usize) -> [u8; 16]
    ensures { result ≡ get_or power_rows e no_row }
{
    match e {
        0 => POWERS_0,
        1 => POWERS_1,
        2 => POWERS_2,
        3 => POWERS_3,
        _ => [0; 16],
    }
}

// The sum of the bytes of a part; past the sixteenth they don't count.
#[tactic(auto, unfolding(crate::specs::Rows::power_rows))]
fn plain_sum(part: &[u8]) -> u8
    ensures { result ≡ inner_product 8 285 (length part.now) part.now (get_or power_rows 0 no_row) }
{
    if 16 < part.len() {
        gf256::dot(part, &POWERS_0)
    } else {
        gf256::sum(part)
    }
}

// The inner product of a part with the locators to the power e, without a product where e is 0.
#[tactic(auto, unfolding(crate::specs::Rows::power_rows))]
pub fn power_sum(part: &[u8], e: usize) -> u8
    ensures { result ≡ inner_product 8 285 (length part.now) part.now (get_or power_rows e no_row) }
{
    match e {
        0 => plain_sum(part),
        1 => gf256::dot(part, &POWERS_1),
        2 => gf256::dot(part, &POWERS_2),
        3 => gf256::dot(part, &POWERS_3),
        _ => gf256::dot(part, &NONE),
    }
}

// The inner product of a part with the coefficients of the first sum across for c local checks, c from 1 to 4; i is c - 1.
#[tactic(auto, unfolding(crate::specs::Rows::first_rows))]
pub fn first_sum(part: &[u8], i: usize) -> u8
    ensures { result ≡ inner_product 8 285 (length part.now) part.now (get_or first_rows i no_row) }
{
    match i {
        0 => gf256::dot(part, &FIRST_1),
        1 => gf256::dot(part, &FIRST_2),
        2 => gf256::dot(part, &FIRST_3),
        3 => gf256::dot(part, &FIRST_4),
        _ => gf256::dot(part, &NONE),
    }
}

// The inner product of a part with the coefficients of the second sum across, the sixteenth powers of the first sum's; i is c - 1.
#[tactic(auto, unfolding(crate::specs::Rows::second_rows))]
pub fn second_sum(part: &[u8], i: usize) -> u8
    ensures { result ≡ inner_product 8 285 (length part.now) part.now (get_or second_rows i no_row) }
{
    match i {
        0 => gf256::dot(part, &SECOND_1),
        1 => gf256::dot(part, &SECOND_2),
        2 => gf256::dot(part, &SECOND_3),
        3 => gf256::dot(part, &SECOND_4),
        _ => gf256::dot(part, &NONE),
    }
}
