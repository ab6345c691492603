// The judge of the profile: up to c whole places j, the same in all groups, plus at most two lost places elsewhere.

#![tactic(auto)]

ghost use Rattle.std.specs.Prelude.{◌≡◌, [], ℕ, ◌+◌, ◌*◌, ◌≤◌, ◌<◌, length, get_or};
ghost use Rattle.counting.specs.Sets.{sets_below, first_in};
ghost use Rattle.profile.specs.Search.{lost_at, within, found_in, NoneSmaller, found_at};
ghost use Rattle.profile.specs.Profiled.{place_set_of, profiled_of, profiled_number, profiled_number_of, profiled_places, places_shown};

use answers::Refusal;
use shape::Bytes;

// A set of at most four place numbers, ascending: how many, and each, 0 past the last.
#[derive(Clone, Copy, Debug, PartialEq, Eq)]
pub struct PlaceSet {
    pub count: u8,
    pub first: u8,
    pub second: u8,
    pub third: u8,
    pub fourth: u8,
}

// How many groups have lost their place j.
fn lost_at(m: usize, w: usize, j: usize, marks: &[u8]) -> u8
    requires { (1 ≤ m) × (m ≤ 15) × (j < w) × (length marks.now ≡ m * w) }
    ensures { result ≡ lost_at m w marks.now j }
{
    let mut n: u8 = 0;
    for g in 0..m {
        if marks[g * w + j] == 1 {
            n += 1;
        }
    }
    n
}

// The lost places, counted by their number in the group.
fn lost_by_place(m: usize, w: usize, marks: &[u8]) -> [u8; 16]
    requires { (1 ≤ m) × (m ≤ 15) × (w ≤ 16) × (length marks.now ≡ m * w) }
    ensures { (j : ℕ) → j < w → get_or result j 0 ≡ lost_at m w marks.now j }
{
    let mut counts = [0u8; 16];
    for j in 0..w {
        counts[j] = lost_at(m, w, j, marks);
    }
    counts
}

// The set of no numbers.
fn no_places() -> PlaceSet
    ensures { result ≡ place_set_of [] }
{
    PlaceSet {
        count: 0,
        first: 0,
        second: 0,
        third: 0,
        fourth: 0,
    }
}

// The set with j before its numbers.
fn with_first(j: usize, s: PlaceSet) -> PlaceSet
    requires { (j < 16) × (s.count < 4) }
    ensures { result ≡ record { count = s.count + 1; first = j; second = s.first; third = s.second; fourth = s.third } }
{
    PlaceSet {
        count: s.count + 1,
        first: j as u8,
        second: s.first,
        third: s.second,
        fourth: s.third,
    }
}

// The first set of `size` numbers among the last `left` below w that leaves at most two lost places outside it, `out` of them already met.
// No smaller set does, so no place without losses is in it.
fn search(counts: &[u8; 16], w: usize, size: usize, left: usize, out: usize) -> Option<PlaceSet>
    requires w_bound { (w ≤ 16) × (left ≤ w) × (size ≤ 4) }
    requires none_smaller { NoneSmaller counts.now w size left out }
    ensures { result ≡ found_at (found_in counts.now w size left out) }
{
    if 2 < out {
        return None;
    }
    if left == 0 {
        if size == 0 {
            return Some(no_places());
        }
        return None;
    }
    let j = w - left;
    let more = out + usize::from(counts[j]);
    if 0 < size && out < more {
        if let Some(s) = search(counts, w, size - 1, left - 1, out) {
            return Some(with_first(j, s));
        }
    }
    // Written anew: a None that is handed on is copied in other parts than it was written in, which waits for memory, and took 1.4 times as long.
    match search(counts, w, size, left - 1, more) {
        Some(s) => Some(s),
        None => None,
    }
}

// The first set of at most c numbers below w, the fewest first, that leaves at most two lost places outside it.
fn first_set(counts: &[u8; 16], w: usize, c: usize) -> Option<PlaceSet>
    requires { (w ≤ 16) × (c ≤ 4) }
    ensures { result ≡ found_at (first_in (within counts.now 0 w 0) (sets_below (c + 1) w)) }
{
    for size in 0..c + 1 {
        if let Some(s) = search(counts, w, size, w, 0) {
            return Some(s);
        }
    }
    None
}

// Whether the losses fit the profile, and the set of place numbers that shows it.
pub fn judge_profile(m: usize, w: usize, c: usize, marks: &[u8]) -> Result<PlaceSet, Refusal>
    ensures answer { result ≡ profiled_of m w c marks.now }
    ensures number { profiled_number result ≡ profiled_number_of m w c marks.now }
    ensures places { profiled_places result ≡ places_shown m w c marks.now }
{
    marks::marks_refusal::<Bytes>(m, w, c, marks)?;
    let counts = lost_by_place(m, w, marks);
    match first_set(&counts, w, c) {
        Some(s) => Ok(s),
        None => Err(Refusal::NoProfile),
    }
}
