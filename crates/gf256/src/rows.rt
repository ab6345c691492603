// The rows of sixteen that the inverse is made of, each read by one function.
ghost use Rattle.std.specs.Prelude.{◌≡◌, ◌<◌, ◌/◌, ◌%◌, get_or};
ghost use Rattle.gf256.specs.Rows.{sixteenths_low, sixteenths_high, locators_by_low, locator_inverses};

// The sixteenth powers of 0 to 15.
const SIXTEENTHS_LOW: [u8; 16] = [
    0, 1, 76, 77, 157, 156, 209, 208, 70, 71, 10, 11, 219, 218, 151, 150,
];

// The sixteenth powers of 0, 16, 32, .., 240.
const SIXTEENTHS_HIGH: [u8; 16] = [
    0, 95, 253, 162, 217, 134, 36, 123, 129, 222, 124, 35, 88, 7, 165, 250,
];

// The locator with each low four bits: no two locators agree in them.
const LOCATORS_BY_LOW: [u8; 16] = [
    0, 1, 146, 147, 68, 69, 214, 215, 152, 153, 10, 11, 220, 221, 78, 79,
];

// Its inverse; 0 for the locator 0.
const LOCATOR_INVERSES: [u8; 16] = [
    0, 1, 68, 79, 146, 78, 215, 214, 11, 220, 221, 152, 153, 10, 69, 147,
];

// The sixteenth power of the low four bits of a.
#[tactic(auto, unfolding(crate::specs::Rows::sixteenths_low))]
pub fn sixteenth_low(a: u8) -> u8
    ensures { result ≡ get_or sixteenths_low (a % 16) 0 }
{
    SIXTEENTHS_LOW[usize::from(a % 16)]
}

// The sixteenth power of the high four bits of a, where they stand.
#[tactic(auto, unfolding(crate::specs::Rows::sixteenths_high))]
pub fn sixteenth_high(a: u8) -> u8
    ensures { result ≡ get_or sixteenths_high (a / 16) 0 }
{
    SIXTEENTHS_HIGH[usize::from(a / 16)]
}

// The locator with the low four bits of a.
#[tactic(auto, unfolding(crate::specs::Rows::locators_by_low))]
pub fn locator_like(a: u8) -> u8
    ensures { result ≡ get_or locators_by_low (a % 16) 0 }
{
    LOCATORS_BY_LOW[usize::from(a % 16)]
}

// The inverse of the locator a, by its low four bits; 0 for 0.
#[tactic(auto, unfolding(crate::specs::Rows::locator_inverses))]
pub fn locator_inverse(a: u8) -> u8
    ensures { result ≡ get_or locator_inverses (a % 16) 0 }
{
    LOCATOR_INVERSES[usize::from(a % 16)]
}
