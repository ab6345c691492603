// The candidate for a word with lost places: where the excess is at most two, what any codeword that agrees with the present bytes must be.

#![tactic(auto)]

ghost use Rattle.std.specs.Prelude.{◌≡◌, false, ℕ, ◌*◌, ◌/◌, ◌%◌, ◌≤◌, ◌<◌, length, take};
ghost use Rattle.shape.specs.Shapes.{byte_limits};
ghost use Rattle.code.specs.Marks.{lost, lost_in};
ghost use Rattle.code.specs.Limits.{GoodIn};
ghost use Rattle.byte_edition.specs.Edition.{byte_edition};
ghost use Rattle.binary_field.specs.Xor.{◌⊕◌};
ghost use Rattle.code.specs.Edition.{times};
ghost use Rattle.code.specs.Combined.{combined};
ghost use Rattle.code.specs.Lone.{lone};
ghost use Rattle.code.specs.Stretch.{stretch};
ghost use Rattle.syndrome.specs.Across.{across_of, no_sums};
ghost use Rattle.code_engine.specs.BoundGroups.{BoundAll};
ghost use Rattle.code_engine.specs.CandidateSteps.{ZeroFrom, GroupsFilledIn, DirectionIn, AddedIn};
ghost use Rattle.code.specs.Pair.{MetIn};
ghost use Rattle.code_engine.specs.Mended.{BoundFew, MendedOneIn, MendedTwoIn, MendedIn, IsCandidateIn};

use shape::Bytes;
use syndrome::Sums;

// Fills the bound places of every group by its own equations.
// A function in each edition: a generic one needs a trait with fill, its edition and its words as numbers, with laws of slices, for a loop of three lines.
fn fill_groups(m: usize, w: usize, c: usize, bound: &[u8], base: &mut [u8])
    requires good_in { GoodIn byte_limits m w c }
    requires base_len { length base.old ≡ m * w }
    requires bound_len { length bound.now ≡ m * w }
    requires by_index { (g : ℕ) → g < m → lost_in w bound.now g ≤ c }
    ensures { GroupsFilledIn byte_edition m w bound.now base.old base.new }
{
    for g in 0..m {
        let a = g * w;
        let e = a + w;
        fill::fill(&mut base[a..e], &bound[a..e]);
    }
}

// The direction of place j of a group with these bound marks; its stretch stands at the front, and zeros after it.
fn direction(j: usize, bound: &[u8]) -> [u8; 16]
    requires bound_len_bound { length bound.now ≤ 16 }
    requires j_in_bounds { j < length bound.now }
    requires j_value { lost bound.now j ≡ false }
    requires bound_bound { lost_in (length bound.now) bound.now 0 ≤ 4 }
    ensures direction_in { DirectionIn byte_edition (length bound.now) j bound.now (take (length bound.now) result) }
    ensures zero_from { ZeroFrom (length bound.now) result }
{
    let w = bound.len();
    let mut h = [0u8; 16];
    h[j] = 1;
    fill::fill(&mut h[..w], bound);
    h
}

// Adds u times h to a stretch.
fn add_multiple(u: u8, h: &[u8], part: &mut [u8])
    requires { length h.now ≡ length part.old }
    ensures { AddedIn byte_edition u h.now part.old part.new }
{
    for (i, byte) in part.iter_mut().enumerate() {
        *byte ^= gf256::shifted_product(u, h[i]);
    }
}

// The unknowns of two free places.
#[derive(Clone, Copy)]
struct Unknowns {
    first: u8,
    second: u8,
}

// The two unknowns, from their coefficients in the two sums across and what they have to come to, by the determinant, which is not 0.
fn two_unknowns(a1: u8, a2: u8, b1: u8, b2: u8, s: u8, t: u8) -> Unknowns
    requires { times byte_edition a1 b2 ⊕ times byte_edition a2 b1 ≡ 0 → ⊥ }
    ensures { MetIn byte_edition a1 a2 b1 b2 s t result.first result.second }
{
    let i = gf256::inverse(gf256::shifted_product(a1, b2) ^ gf256::shifted_product(a2, b1));
    let first = gf256::shifted_product(
        i,
        gf256::shifted_product(s, b2) ^ gf256::shifted_product(t, a2),
    );
    let second = gf256::shifted_product(
        i,
        gf256::shifted_product(a1, t) ^ gf256::shifted_product(b1, s),
    );
    Unknowns { first, second }
}

// Adds u times the direction h to group g of the word.
fn add_direction(m: usize, w: usize, g: usize, u: u8, h: [u8; 16], word: &mut [u8])
    requires w_bound { w ≤ 16 }
    requires g_lt_m { g < m }
    requires word_len { length word.old ≡ m * w }
    ensures { word.new ≡ combined byte_edition (m * w) word.old 1 (λ _. u) (λ _. lone m w g (take w h)) }
{
    let a = g * w;
    let e = a + w;
    add_multiple(u, &h[..w], &mut word[a..e]);
}

// The direction of place p of the word, which is not bound.
fn way(m: usize, w: usize, c: usize, p: usize, bound: &[u8]) -> [u8; 16]
    requires good_in { GoodIn byte_limits m w c }
    requires p_bound { p < m * w }
    requires bound_few { BoundFew m w c p bound.now }
    ensures direction_in { DirectionIn byte_edition w (p % w) (stretch w (p / w) bound.now) (take w result) }
    ensures zero_from { ZeroFrom w result }
{
    let g = p / w;
    let j = p % w;
    let a = g * w;
    let e = a + w;
    direction(j, &bound[a..e])
}

// The coefficients of the direction h of group g in the two sums across.
fn weights(m: usize, w: usize, c: usize, g: usize, h: [u8; 16]) -> Sums
    requires good_in { GoodIn byte_limits m w c }
    requires g_lt_m { g < m }
    requires zero_from { ZeroFrom w h }
    ensures { result ≡ across_of m w c (lone m w g (take w h)) }
{
    syndrome::group_sums(&h, c, g)
}

// Sets the one free place p, and with it the bound places of its group, so that the sums across, which are s, become zero if they can be:
// the first does, since the direction's is not 0. It gives back what they have become.
fn mend_one(m: usize, w: usize, c: usize, p: usize, bound: &[u8], word: &mut [u8], s: Sums) -> Sums
    requires good_in { GoodIn byte_limits m w c }
    requires word_len { length word.old ≡ m * w }
    requires p_bound { p < m * w }
    requires bound_few { BoundFew m w c p bound.now }
    requires s_value { s ≡ across_of m w c word.old }
    ensures mended_one_in { MendedOneIn byte_edition m w c p bound.now word.old word.new }
    ensures value { result ≡ across_of m w c word.new }
{
    let g = p / w;
    let h = way(m, w, c, p, bound);
    let a = weights(m, w, c, g, h);
    let u = gf256::shifted_product(s.first, gf256::inverse(a.first));
    add_direction(m, w, g, u, h, word);
    let second = s.second ^ gf256::shifted_product(u, a.second);
    Sums { first: 0, second }
}

// The same for two free places p and q: both sums become zero.
fn mend_two(
    m: usize,
    w: usize,
    c: usize,
    p: usize,
    q: usize,
    bound: &[u8],
    word: &mut [u8],
    s: Sums,
) -> Sums
    requires good_in { GoodIn byte_limits m w c }
    requires word_len { length word.old ≡ m * w }
    requires p_bound { (p < m * w) × (q < m * w) × (p ≡ q → ⊥) }
    requires bound_few { BoundFew m w c p bound.now }
    requires bound_few_2 { BoundFew m w c q bound.now }
    requires s_value { s ≡ across_of m w c word.old }
    ensures mended_two_in { MendedTwoIn byte_edition m w c p q bound.now word.old word.new }
    ensures value { result ≡ across_of m w c word.new }
{
    let g = p / w;
    let h = way(m, w, c, p, bound);
    let a = weights(m, w, c, g, h);
    let i = q / w;
    let k = way(m, w, c, q, bound);
    let b = weights(m, w, c, i, k);
    let u = two_unknowns(a.first, b.first, a.second, b.second, s.first, s.second);
    add_direction(m, w, g, u.first, h, word);
    add_direction(m, w, i, u.second, k, word);
    Sums {
        first: 0,
        second: 0,
    }
}

// Sets the first two free places, or as many as there are, so that the sums across are zero if they can be, and gives these sums back.
fn mend(m: usize, w: usize, c: usize, marks: &[u8], bound: &[u8], word: &mut [u8]) -> Sums
    requires good_in { GoodIn byte_limits m w c }
    requires word_len { length word.old ≡ m * w }
    requires marks_len { length marks.now ≡ m * w }
    requires bound_all { BoundAll m w c marks.now bound.now }
    ensures mended_in { MendedIn byte_edition m w c marks.now bound.now word.old word.new }
    ensures value { result ≡ across_of m w c word.new }
{
    let f = erasures::free_places(marks, bound);
    let s = syndrome::across(m, w, c, word);
    if f.count == 1 {
        return mend_one(m, w, c, f.first, bound, word, s);
    }
    if f.count == 2 {
        return mend_two(m, w, c, f.first, f.second, bound, word, s);
    }
    s
}

// The candidate of a good shape, and its sums across; bound is working space.
fn rebuild(
    m: usize,
    w: usize,
    c: usize,
    word: &[u8],
    marks: &[u8],
    bound: &mut [u8],
    out: &mut [u8],
) -> Sums
    requires good_in { GoodIn byte_limits m w c }
    requires word_len { length word.now ≡ m * w }
    requires marks_len { length marks.now ≡ m * w }
    requires bound_len { length bound.old ≡ m * w }
    requires out_len { length out.old ≡ m * w }
    ensures candidate_in { IsCandidateIn byte_edition m w c marks.now word.now out.new }
    ensures value { result ≡ across_of m w c out.new }
{
    buffers::copy(marks, bound);
    erasures::clear_free(w, c, bound);
    erasures::blank_lost(0, word, marks, out);
    fill_groups(m, w, c, bound, out);
    mend(m, w, c, marks, bound, out)
}

// Writes the candidate into out: the present bytes of word and, where the excess is at most two, in the lost places what any codeword that agrees
// with them must have. It gives back the candidate's two sums across.
// A shape that is not good, or lengths that are not its own, leave out as it is, and the sums are 0.
pub fn candidate(m: usize, w: usize, c: usize, word: &[u8], marks: &[u8], out: &mut [u8]) -> Sums
    ensures candidate_in { GoodIn byte_limits m w c → length word.now ≡ m * w → length marks.now ≡ m * w → length out.old ≡ m * w → IsCandidateIn byte_edition m w c marks.now word.now out.new }
    ensures value { GoodIn byte_limits m w c → length word.now ≡ m * w → length marks.now ≡ m * w → length out.old ≡ m * w → result ≡ across_of m w c out.new }
    ensures out_len_unchanged { length out.new ≡ length out.old }
    ensures out_unchanged { (GoodIn byte_limits m w c → length word.now ≡ m * w → length marks.now ≡ m * w → length out.old ≡ m * w → ⊥) → (out.new ≡ out.old) × (result ≡ no_sums) }
{
    let none = Sums {
        first: 0,
        second: 0,
    };
    if shape::word_refusal::<Bytes>(m, w, c, word.len()).is_err() {
        return none;
    }
    if marks.len() != word.len() {
        return none;
    }
    if out.len() != word.len() {
        return none;
    }
    let n = word.len();
    let mut bound = [0u8; 240];
    rebuild(m, w, c, word, marks, &mut bound[..n], out)
}
