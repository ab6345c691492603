// The candidate for a word of the sixteen-bit edition with lost places: where the excess is at most two, what any codeword that agrees with the present symbols must be.

#![tactic(auto)]

ghost use Rattle.std.specs.Prelude.{◌≡◌, false, ℕ, ◌*◌, ◌/◌, ◌%◌, ◌≤◌, ◌<◌, length, replicate};
ghost use Rattle.code.specs.Marks.{lost, lost_in};
ghost use Rattle.code.specs.Limits.{GoodIn};
ghost use Rattle.wide_shape.specs.Edition.{wide_limits, wide_edition};
ghost use Rattle.binary_field.specs.Xor.{◌⊕◌};
ghost use Rattle.code.specs.Edition.{times};
ghost use Rattle.code.specs.Combined.{combined};
ghost use Rattle.code.specs.Lone.{lone};
ghost use Rattle.code.specs.Stretch.{stretch};
ghost use Rattle.wide_across.specs.Across.{wide_across, no_wide_sums};
ghost use Rattle.code_engine.specs.CandidateSteps.{GroupsFilledIn, DirectionIn, AddedIn};
ghost use Rattle.code.specs.Pair.{MetIn};
ghost use Rattle.code_loops.specs.Rebuild.{RebuildLent};
ghost use Rattle.wide_candidate.specs.Free.{OneOrTwo};
ghost use Rattle.wide_candidate.specs.Asked.{FillAsked, OneAsked, TwoAsked, MendAsked};
ghost use Rattle.code_engine.specs.Mended.{BoundFew, MendedOneIn, MendedTwoIn, MendedIn, IsCandidateIn};

use erasures::Free;
use wide_across::Sums;
use wide_shape::{Shape, Wide};

// Fills the bound places of every group by its own equations.
// A function in each edition: a generic one needs a trait with fill, its edition and its words as numbers, with laws of slices, for a loop of three lines.
fn fill_groups(m: usize, w: usize, c: usize, bound: &[u8], base: &mut [u16])
    requires { FillAsked m w c bound.now base.old }
    ensures { GroupsFilledIn wide_edition m w bound.now base.old base.new }
{
    for g in 0..m {
        let a = g * w;
        let e = a + w;
        wide_solve::fill(&mut base[a..e], &bound[a..e]);
    }
}

// Writes the direction of place j of a group with these bound marks into h, which comes as zeros.
fn direction(j: usize, bound: &[u8], h: &mut [u16])
    requires bound_len_bound { length bound.now ≤ 256 }
    requires j_in_bounds { j < length bound.now }
    requires j_value { lost bound.now j ≡ false }
    requires bound_bound { lost_in (length bound.now) bound.now 0 ≤ 4 }
    requires h_value { h.old ≡ replicate (length bound.now) 0 }
    ensures { DirectionIn wide_edition (length bound.now) j bound.now h.new }
{
    h[j] = 1;
    wide_solve::fill(h, bound);
}

// Adds u times h to a stretch. Most of a direction is 0, and is left out.
fn add_multiple(u: u16, h: &[u16], part: &mut [u16])
    requires { length h.now ≡ length part.old }
    ensures { AddedIn wide_edition u h.now part.old part.new }
{
    for (i, v) in h.iter().enumerate() {
        if *v != 0 {
            part[i] ^= wide_across::multiple(*v, u);
        }
    }
}

// The unknowns of two free places.
#[derive(Clone, Copy)]
struct Unknowns {
    first: u16,
    second: u16,
}

// The two unknowns, from their coefficients in the two sums across and what they have to come to, by the determinant, which is not 0.
fn two_unknowns(a1: u16, a2: u16, b1: u16, b2: u16, s: u16, t: u16) -> Unknowns
    requires { times wide_edition a1 b2 ⊕ times wide_edition a2 b1 ≡ 0 → ⊥ }
    ensures { MetIn wide_edition a1 a2 b1 b2 s t result.first result.second }
{
    let mut x = [a1, a2, s, t, a1, b1, 0, 0];
    let y = [b2, b1, b2, a2, t, s, 0, 0];
    wide_sums::multiply(&mut x, &y);
    let i = wide_solve::inverse(x[0] ^ x[1]);
    let first = wide_field::product(i, x[2] ^ x[3]);
    let second = wide_field::product(i, x[4] ^ x[5]);
    Unknowns { first, second }
}

// Adds u times the direction h to group g of the word.
fn add_direction(m: usize, w: usize, g: usize, u: u16, h: &[u16], word: &mut [u16])
    requires h_len { length h.now ≡ w }
    requires g_lt_m { g < m }
    requires word_len { length word.old ≡ m * w }
    ensures { word.new ≡ combined wide_edition (m * w) word.old 1 (λ _. u) (λ _. lone m w g h.now) }
{
    let a = g * w;
    let e = a + w;
    add_multiple(u, h, &mut word[a..e]);
}

// The coefficients of the direction h of group g in the two sums across.
fn weights(m: usize, w: usize, c: usize, g: usize, h: &[u16]) -> Sums
    requires good_in { GoodIn wide_limits m w c }
    requires g_lt_m { g < m }
    requires h_len { length h.now ≡ w }
    ensures { result ≡ wide_across m w c (lone m w g h.now) }
{
    wide_across::group_sums(h, c, g)
}

// Writes the direction of place p of the word, which is not bound, into h, which comes as zeros, and gives back its coefficients.
fn way(m: usize, w: usize, c: usize, p: usize, bound: &[u8], h: &mut [u16]) -> Sums
    requires good_in { GoodIn wide_limits m w c }
    requires p_bound { p < m * w }
    requires bound_few { BoundFew m w c p bound.now }
    requires h_value { h.old ≡ replicate w 0 }
    ensures direction_in { DirectionIn wide_edition w (p % w) (stretch w (p / w) bound.now) h.new }
    ensures value { result ≡ wide_across m w c (lone m w (p / w) h.new) }
{
    let g = p / w;
    let j = p % w;
    let a = g * w;
    let e = a + w;
    direction(j, &bound[a..e], h);
    weights(m, w, c, g, h)
}

// Sets the one free place p, and with it the bound places of its group, so that the sums across, which are s, become zero if they can be:
// the first does, since the direction's is not 0. It gives back what they have become. The direction is worked out in h, which comes as zeros.
fn mend_one(
    m: usize,
    w: usize,
    c: usize,
    p: usize,
    bound: &[u8],
    word: &mut [u16],
    s: Sums,
    h: &mut [u16],
) -> Sums
    requires { OneAsked m w c p bound.now word.old s h.old }
    ensures mended_one_in { MendedOneIn wide_edition m w c p bound.now word.old word.new }
    ensures value { result ≡ wide_across m w c word.new }
{
    let g = p / w;
    let a = way(m, w, c, p, bound, h);
    let u = wide_field::product(s.first, wide_solve::inverse(a.first));
    add_direction(m, w, g, u, h, word);
    let second = s.second ^ wide_field::product(u, a.second);
    Sums { first: 0, second }
}

// The same for two free places p and q, with room for two directions: both sums become zero.
fn mend_two(
    m: usize,
    w: usize,
    c: usize,
    p: usize,
    q: usize,
    bound: &[u8],
    word: &mut [u16],
    s: Sums,
    h: &mut [u16],
    k: &mut [u16],
) -> Sums
    requires { TwoAsked m w c p q bound.now word.old s h.old k.old }
    ensures mended_two_in { MendedTwoIn wide_edition m w c p q bound.now word.old word.new }
    ensures value { result ≡ wide_across m w c word.new }
{
    let g = p / w;
    let a = way(m, w, c, p, bound, h);
    let i = q / w;
    let b = way(m, w, c, q, bound, k);
    let u = two_unknowns(a.first, b.first, a.second, b.second, s.first, s.second);
    add_direction(m, w, g, u.first, h, word);
    add_direction(m, w, i, u.second, k, word);
    Sums {
        first: 0,
        second: 0,
    }
}

// The same for the one or two free places f.
fn mend_free(
    m: usize,
    w: usize,
    c: usize,
    f: Free,
    bound: &[u8],
    word: &mut [u16],
    s: Sums,
    h: &mut [u16],
    k: &mut [u16],
) -> Sums
    requires good_in { GoodIn wide_limits m w c }
    requires word_len { length word.old ≡ m * w }
    requires one_or_two { OneOrTwo m w c f bound.now }
    requires s_value { s ≡ wide_across m w c word.old }
    requires h_value { (h.old ≡ replicate w 0) × (k.old ≡ replicate w 0) }
    ensures mended_one_in { f.count ≡ 1 → MendedOneIn wide_edition m w c f.first bound.now word.old word.new }
    ensures mended_two_in { f.count ≡ 2 → MendedTwoIn wide_edition m w c f.first f.second bound.now word.old word.new }
    ensures value { result ≡ wide_across m w c word.new }
{
    if f.count == 1 {
        return mend_one(m, w, c, f.first, bound, word, s, h);
    }
    mend_two(m, w, c, f.first, f.second, bound, word, s, h, k)
}

// Sets the first two free places, or as many as there are, so that the sums across are zero if they can be, and gives these sums back.
fn mend(m: usize, w: usize, c: usize, marks: &[u8], bound: &[u8], word: &mut [u16]) -> Sums
    requires { MendAsked m w c marks.now bound.now word.old }
    ensures mended_in { MendedIn wide_edition m w c marks.now bound.now word.old word.new }
    ensures value { result ≡ wide_across m w c word.new }
{
    let f = erasures::free_places(marks, bound);
    let s = wide_across::across(m, w, c, word);
    if f.count == 0 {
        return s;
    }
    if w <= 16 {
        let mut near = [0u16; 16];
        let mut far = [0u16; 16];
        return mend_free(m, w, c, f, bound, word, s, &mut near[..w], &mut far[..w]);
    }
    let mut h = [0u16; Shape::MAX_WIDTH];
    let mut k = [0u16; Shape::MAX_WIDTH];
    mend_free(m, w, c, f, bound, word, s, &mut h[..w], &mut k[..w])
}

// The candidate of a good shape, and its sums across; bound comes to hold the marks of the places that the groups keep.
fn rebuild(
    m: usize,
    w: usize,
    c: usize,
    word: &[u16],
    marks: &[u8],
    bound: &mut [u8],
    out: &mut [u16],
) -> Sums
    requires { RebuildLent wide_limits m w c (length word.now) marks.now (length bound.old) (length out.old) }
    ensures candidate_in { IsCandidateIn wide_edition m w c marks.now word.now out.new }
    ensures value { result ≡ wide_across m w c out.new }
{
    buffers::copy(marks, bound);
    erasures::clear_free(w, c, bound);
    erasures::blank_lost(0, word, marks, out);
    fill_groups(m, w, c, bound, out);
    mend(m, w, c, marks, bound, out)
}

// Writes the candidate into out: the present symbols of word and, where the excess is at most two, in the lost places what any codeword that agrees
// with them must have. It gives back the candidate's two sums across.
// A shape that is not good, or lengths that are not its own, leave out as it is, and the sums are 0.
pub fn candidate(m: usize, w: usize, c: usize, word: &[u16], marks: &[u8], out: &mut [u16]) -> Sums
    ensures candidate_in { GoodIn wide_limits m w c → length word.now ≡ m * w → length marks.now ≡ m * w → length out.old ≡ m * w → IsCandidateIn wide_edition m w c marks.now word.now out.new }
    ensures value { GoodIn wide_limits m w c → length word.now ≡ m * w → length marks.now ≡ m * w → length out.old ≡ m * w → result ≡ wide_across m w c out.new }
    ensures out_len_unchanged { length out.new ≡ length out.old }
    ensures out_unchanged { (GoodIn wide_limits m w c → length word.now ≡ m * w → length marks.now ≡ m * w → length out.old ≡ m * w → ⊥) → (out.new ≡ out.old) × (result ≡ no_wide_sums) }
{
    let none = Sums {
        first: 0,
        second: 0,
    };
    if shape::word_refusal::<Wide>(m, w, c, word.len()).is_err() {
        return none;
    }
    if marks.len() != word.len() {
        return none;
    }
    if out.len() != word.len() {
        return none;
    }
    let n = word.len();
    if n <= 64 {
        let mut near = [0u8; 64];
        return rebuild(m, w, c, word, marks, &mut near[..n], out);
    }
    let mut bound = [0u8; Shape::MAX_PLACES];
    rebuild(m, w, c, word, marks, &mut bound[..n], out)
}
