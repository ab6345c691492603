// The shape of a word: how many groups, how wide each is, and how many local checks each has. What an edition allows, and its refusals.

#![tactic(auto)]

ghost use Rattle.std.specs.Prelude.{◌≡◌, refl, ℕ, ◌≤◌};
ghost use Rattle.std.proofs.Common.{lit<};
ghost use Rattle.code.specs.Limits.{Limits, place_count, data_count, sure_count, shape_refusal_in, sale_refusal_in, word_refusal_in, buffer_refusal_in};
ghost use Rattle.answers.specs.Answers.{refused_number};
ghost use Rattle.answers.specs.Figures.{described_number, described_figures, described_in, figures_in};
ghost use Rattle.shape.specs.Shapes.{made_of, byte_limits};

use answers::{Figures, Refusal};

// An edition of the code, as its services ask of it: its symbols, and how large a shape may be.
pub trait Edition {
    type Symbol: Copy;

    const ZERO: Self::Symbol;

    const MAX_GROUPS: usize;

    const MAX_CHECKS: usize;

    const MAX_WIDTH: usize;

    const MAX_PLACES: usize;

    ghost ZERO: { Self.Symbol };

    ghost MAX_GROUPS: { ℕ };

    ghost MAX_CHECKS: { ℕ };

    ghost MAX_WIDTH: { ℕ };

    ghost MAX_PLACES: { ℕ };

    ghost limits: { Limits };

    // The limits are the constants, and so small that no count of a word's places overflows.
    ghost groups: { limits.groups ≡ MAX_GROUPS };

    ghost checks: { limits.checks ≡ MAX_CHECKS };

    ghost width: { limits.width ≡ MAX_WIDTH };

    ghost places: { limits.places ≡ MAX_PLACES };

    ghost few_groups: { limits.groups ≤ 255 };

    ghost few_checks: { limits.checks ≤ 255 };

    ghost narrow: { limits.width ≤ 256 };
}

// The edition of bytes.
pub struct Bytes;

impl Edition for Bytes {
    type Symbol = u8;

    const ZERO: u8 = 0;

    const MAX_GROUPS: usize = Shape::MAX_GROUPS;

    const MAX_CHECKS: usize = Shape::MAX_CHECKS;

    const MAX_WIDTH: usize = Shape::MAX_WIDTH;

    const MAX_PLACES: usize = Shape::MAX_PLACES;

    ghost ZERO = { 0 };

    ghost MAX_GROUPS = { 15 };

    ghost MAX_CHECKS = { 4 };

    ghost MAX_WIDTH = { 16 };

    ghost MAX_PLACES = { 240 };

    ghost limits = { byte_limits };

    ghost groups = { refl };

    ghost checks = { refl };

    ghost width = { refl };

    ghost places = { refl };

    ghost few_groups = { lit< tt };

    ghost few_checks = { lit< tt };

    ghost narrow = { lit< tt };
}

// m groups of w places, with c local checks in each.
#[derive(Clone, Copy, Debug, PartialEq, Eq)]
pub struct Shape {
    pub m: u8,
    pub w: u8,
    pub c: u8,
}

impl Shape {
    pub const MAX_GROUPS: usize = 15;

    pub const MAX_CHECKS: usize = 4;

    pub const MAX_WIDTH: usize = 16;

    pub const MAX_PLACES: usize = 240;

    // The shape of these numbers, if it is good.
    pub fn new(m: usize, w: usize, c: usize) -> Result<Shape, Refusal>
        ensures { result ≡ made_of m w c }
    {
        shape_refusal::<Bytes>(m, w, c)?;
        let s = Shape {
            m: m as u8,
            w: w as u8,
            c: c as u8,
        };
        Ok(s)
    }

    // The bytes of a word.
    pub fn n(self) -> usize
        ensures { result ≡ place_count self.m self.w }
    {
        usize::from(self.m) * usize::from(self.w)
    }

    // The bytes of data in a word; 0 where the shape has no room for any.
    pub fn k(self) -> usize
        ensures { result ≡ data_count self.m self.w self.c }
    {
        data_count(
            usize::from(self.m),
            usize::from(self.w),
            usize::from(self.c),
        )
    }

    // The sure count.
    pub fn sure(self) -> usize
        ensures { result ≡ sure_count self.w self.c }
    {
        sure_count(usize::from(self.w), usize::from(self.c))
    }
}

// The symbols of data in a word; 0 where there is no room for any.
pub fn data_count(m: usize, w: usize, c: usize) -> usize
    requires few_groups { m ≤ 65535 }
    requires narrow { w ≤ 65535 }
    ensures { result ≡ data_count m w c }
{
    let local = m * w.saturating_sub(c);
    if local <= 2 { 0 } else { local - 2 }
}

// The sure count: more where no group alone can have an excess above 2.
pub fn sure_count(w: usize, c: usize) -> usize
    requires { c ≤ 65535 }
    ensures { result ≡ sure_count w c }
{
    if w == c + 2 { 2 * c + 2 } else { c + 2 }
}

// Refuses a shape as 1 to 4 and 26. A number of any size is tested before it is used. The edition of bytes gives no 26: fifteen groups of sixteen places fit.
pub fn shape_refusal<E: Edition>(m: usize, w: usize, c: usize) -> Result<(), Refusal>
    ensures { refused_number result ≡ shape_refusal_in E.limits m w c }
{
    if m == 0 {
        return Err(Refusal::Groups);
    }
    if E::MAX_GROUPS < m {
        return Err(Refusal::Groups);
    }
    if c == 0 {
        return Err(Refusal::Checks);
    }
    if E::MAX_CHECKS < c {
        return Err(Refusal::Checks);
    }
    if w < c + 2 {
        return Err(Refusal::Width);
    }
    if E::MAX_WIDTH < w {
        return Err(Refusal::Width);
    }
    if m * (w - c) <= 2 {
        return Err(Refusal::NoData);
    }
    if E::MAX_PLACES < m * w {
        return Err(Refusal::WidePlaces);
    }
    Ok(())
}

// The service Describe.
pub fn describe<E: Edition>(m: usize, w: usize, c: usize) -> Result<Figures, Refusal>
    ensures answer { result ≡ described_in E.limits m w c }
    ensures number { described_number result ≡ shape_refusal_in E.limits m w c }
    ensures figures { described_figures result ≡ figures_in E.limits m w c }
{
    shape_refusal::<E>(m, w, c)?;
    Ok(Figures {
        n: m * w,
        k: data_count(m, w, c),
        sure: sure_count(w, c),
    })
}

// Refuses as 1 to 4, 26 and then 29, for a service that makes something new of a shape.
pub fn sale_refusal<E: Edition>(m: usize, w: usize, c: usize) -> Result<(), Refusal>
    ensures { refused_number result ≡ sale_refusal_in E.limits m w c }
{
    shape_refusal::<E>(m, w, c).and(answers::retired_refusal(c))
}

// Refuses as 1 to 4, 26 and then 5, for a service that is lent a word or marks of this length.
pub fn word_refusal<E: Edition>(m: usize, w: usize, c: usize, word: usize) -> Result<(), Refusal>
    ensures { refused_number result ≡ word_refusal_in E.limits m w c word }
{
    shape_refusal::<E>(m, w, c)?;
    if word != m * w {
        return Err(Refusal::Length);
    }
    Ok(())
}

// Refuses as 1 to 4, 26 and then 5, for a service that is lent a word and data of these lengths.
pub fn buffer_refusal<E: Edition>(
    m: usize,
    w: usize,
    c: usize,
    word: usize,
    symbols: usize,
) -> Result<(), Refusal>
    ensures { refused_number result ≡ buffer_refusal_in E.limits m w c word symbols }
{
    word_refusal::<E>(m, w, c, word)?;
    if symbols != data_count(m, w, c) {
        return Err(Refusal::Length);
    }
    Ok(())
}
