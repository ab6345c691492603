// The sixteen locators, a constant read by one function.
ghost use Rattle.std.specs.Prelude.{◌≡◌, get_or};
ghost use Rattle.gf256.specs.Locators.{locators};

// The sixteen locators, in place order.
const LOCATORS: [u8; 16] = [
    1, 152, 78, 10, 153, 214, 68, 147, 79, 146, 215, 220, 221, 69, 11, 0,
];

// The locator of place j; 0 past the last.
#[tactic(auto, unfolding(crate::specs::Locators::locators))]
pub fn locator(j: usize) -> u8
    ensures { result ≡ get_or locators j 0 }
{
    if j < 16 { LOCATORS[j] } else { 0 }
}
