// The lost places of a word: in each group the first c are bound for the group's own equations, the others are free.

#![tactic(auto)]

ghost use Rattle.std.specs.Prelude.{◌≡◌, true, false, ℕ, ◌/◌, ◌<◌, length, get_or};
ghost use Rattle.code_engine.specs.Positions.{FoundLost};
ghost use Rattle.code_engine.specs.Bound.{free, bound_of};
ghost use Rattle.code_engine.specs.BoundGroups.{bound_groups};
ghost use Rattle.code_engine.specs.FreePlaces.{FreePlaces, NextFree};
ghost use Rattle.code_engine.specs.CandidateSteps.{BlankedOver};
ghost use Rattle.erasures.specs.FirstTwo.{first_two};
ghost use Rattle.erasures.specs.FirstTwoLaws.{free_places};

// The number of free places that were found, two at most, and where they are; a place that was not found is 0.
#[derive(Clone, Copy)]
pub struct Free {
    pub count: usize,
    pub first: usize,
    pub second: usize,
}

// Clears the marks of the lost places after the first c.
pub fn clear_free_part(part: &mut [u8], c: usize)
    ensures { part.new ≡ bound_of c part.old }
{
    let mut bound: usize = 0;
    for mark in part.iter_mut() {
        if *mark == 1 {
            if bound < c {
                bound += 1;
            } else {
                *mark = 0;
            }
        }
    }
}

// Clears the marks of the free places of every group of w places that is whole; a width of 0 has no group.
pub fn clear_free(w: usize, c: usize, marks: &mut [u8])
    ensures { marks.new ≡ bound_groups (length marks.old / w) w c marks.old }
{
    if w == 0 {
        return;
    }
    for g in 0..marks.len() / w {
        let a = g * w;
        clear_free_part(&mut marks[a..a + w], c);
    }
}

// The mark of a place, 0 past the end.
fn mark_at(marks: &[u8], p: usize) -> u8
    ensures { result ≡ get_or marks.now p 0 }
{
    marks.get(p).copied().unwrap_or(0)
}

fn is_free(marks: &[u8], bound: &[u8], p: usize) -> bool
    ensures { result ≡ free marks.now bound.now p }
{
    mark_at(marks, p) == 1 && mark_at(bound, p) != 1
}

// The first free place from start on; a number past the last place if there is none.
fn next_free(marks: &[u8], bound: &[u8], start: usize) -> usize
    ensures { NextFree marks.now bound.now start result }
{
    for i in start..marks.len() {
        if is_free(marks, bound, i) {
            return i;
        }
    }
    start.max(marks.len())
}

// Whether every mark is bound, so that no place is free.
fn all_bound(marks: &[u8], bound: &[u8]) -> bool
    ensures { result ≡ true → (p : ℕ) → p < length marks.now → get_or marks.now p 0 ≡ get_or bound.now p 0 }
{
    if marks.len() != bound.len() {
        return false;
    }
    // By the index: `marks == bound` takes 2 times as long here for words of many groups, and a `zip` of the two 1.3 times.
    let mut same = true;
    for i in 0..marks.len() {
        if marks[i] != bound[i] {
            same = false;
        }
    }
    same
}

// A number r such that none of the first r places is free; places are examined sixteen at a time.
fn none_free(marks: &[u8], bound: &[u8]) -> usize
    ensures { (p : ℕ) → p < result → free marks.now bound.now p ≡ false }
{
    if marks.len() != bound.len() {
        return 0;
    }
    let n = marks.len();
    for k in 0..n / 16 {
        let i = 16 * k;
        let e = i + 16;
        if !all_bound(&marks[i..e], &bound[i..e]) {
            return i;
        }
    }
    n - n % 16
}

// The first free place; a number past the last place if there is none.
fn first_free(marks: &[u8], bound: &[u8]) -> usize
    ensures { NextFree marks.now bound.now 0 result }
{
    let start = none_free(marks, bound);
    next_free(marks, bound, start)
}

// The first two free places. Past its end bound counts as not lost.
pub fn free_places(marks: &[u8], bound: &[u8]) -> Free
    ensures free_places { FreePlaces marks.now bound.now result.count result.first result.second }
    ensures value { result ≡ first_two (free_places marks.now bound.now) }
{
    if all_bound(marks, bound) {
        return Free {
            count: 0,
            first: 0,
            second: 0,
        };
    }
    let first = first_free(marks, bound);
    if marks.len() <= first {
        return Free {
            count: 0,
            first: 0,
            second: 0,
        };
    }
    let after = first + 1;
    let second = next_free(marks, bound, after);
    if marks.len() <= second {
        return Free {
            count: 1,
            first,
            second: 0,
        };
    }
    Free {
        count: 2,
        first,
        second,
    }
}

pub fn find(marks: &[u8]) -> Erasures
    ensures { FoundLost marks.now result.at result.count }
{
    let mut at = [0usize; 4];
    let mut n: usize = 0;
    for (i, &mark) in marks.iter().enumerate() {
        if mark == 1 {
            if n < 4 {
                at[n] = i;
            }
            n += 1;
        }
    }
    Erasures { at, count: n }
}

// The positions of the first four lost places, in order, and how many places are lost.
#[derive(Clone, Copy)]
pub struct Erasures {
    pub at: [usize; 4],
    pub count: usize,
}

// A symbol, and zero where its mark says that it is lost.
fn unless_lost<T: Copy>(mark: u8, symbol: T, zero: T) -> T
    ensures value { mark ≡ 1 → result ≡ zero }
    ensures value_2 { (mark ≡ 1 → ⊥) → result ≡ symbol }
{
    if mark == 1 { zero } else { symbol }
}

// Writes word into base, with zero in the lost places.
pub fn blank_lost<T: Copy>(zero: T, word: &[T], marks: &[u8], base: &mut [T])
    requires marks_len { length marks.now ≡ length word.now }
    requires base_len { length base.old ≡ length word.now }
    ensures { BlankedOver zero marks.now word.now base.new }
{
    for (p, symbol) in base.iter_mut().enumerate() {
        *symbol = unless_lost(marks[p], word[p], zero);
    }
}
