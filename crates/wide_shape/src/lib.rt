// The sixteen-bit edition, and the shape of its words.

#![tactic(auto)]

ghost use Rattle.std.specs.Prelude.{◌≡◌, refl};
ghost use Rattle.std.proofs.Common.{lit<};
ghost use Rattle.code.specs.Limits.{place_count, data_count, sure_count};
ghost use Rattle.wide_shape.specs.Edition.{wide_limits};
ghost use Rattle.wide_shape.specs.Shapes.{wide_made_of};

use answers::Refusal;
use shape::Edition;

// The sixteen-bit edition.
pub struct Wide;

impl Edition for Wide {
    type Symbol = u16;

    const ZERO: u16 = 0;

    const MAX_GROUPS: usize = Shape::MAX_GROUPS;

    const MAX_CHECKS: usize = Shape::MAX_CHECKS;

    const MAX_WIDTH: usize = Shape::MAX_WIDTH;

    const MAX_PLACES: usize = Shape::MAX_PLACES;

    ghost ZERO = { 0 };

    ghost MAX_GROUPS = { 255 };

    ghost MAX_CHECKS = { 4 };

    ghost MAX_WIDTH = { 256 };

    ghost MAX_PLACES = { 4096 };

    ghost limits = { wide_limits };

    ghost groups = { refl };

    ghost checks = { refl };

    ghost width = { refl };

    ghost places = { refl };

    ghost few_groups = { lit< tt };

    ghost few_checks = { lit< tt };

    ghost narrow = { lit< tt };
}

// m groups of w places, with c local checks in each. A width of 256 needs more than a byte.
// A type of its own: the records of the byte edition keep a shape::Shape, whose numbers are bytes, and the definitions made_of and wide_made_of name the two.
#[derive(Clone, Copy, Debug, PartialEq, Eq)]
pub struct Shape {
    pub m: u16,
    pub w: u16,
    pub c: u16,
}

impl Shape {
    pub const MAX_GROUPS: usize = 255;

    pub const MAX_CHECKS: usize = 4;

    pub const MAX_WIDTH: usize = 256;

    pub const MAX_PLACES: usize = 4096;

    // The shape of these numbers, if it is good.
    pub fn new(m: usize, w: usize, c: usize) -> Result<Shape, Refusal>
        ensures { result ≡ wide_made_of m w c }
    {
        shape::shape_refusal::<Wide>(m, w, c)?;
        let s = Shape {
            m: m as u16,
            w: w as u16,
            c: c as u16,
        };
        Ok(s)
    }

    // The symbols of a word.
    pub fn n(self) -> usize
        ensures { result ≡ place_count self.m self.w }
    {
        usize::from(self.m) * usize::from(self.w)
    }

    // The symbols of data in a word; 0 where the shape has no room for any.
    pub fn k(self) -> usize
        ensures { result ≡ data_count self.m self.w self.c }
    {
        shape::data_count(
            usize::from(self.m),
            usize::from(self.w),
            usize::from(self.c),
        )
    }

    // The sure count.
    pub fn sure(self) -> usize
        ensures { result ≡ sure_count self.w self.c }
    {
        shape::sure_count(usize::from(self.w), usize::from(self.c))
    }
}
