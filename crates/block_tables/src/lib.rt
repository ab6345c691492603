// Tables of the sums of four blocks, and the selectors: numbers that say which of these sums a row of constants takes for each of its bits. The
// tables are definitions and laws alone; the selectors are worked here.

#![tactic(auto)]

ghost use Rattle.std.specs.Prelude.{◌≡◌, ℕ, ◌*◌, ◌%◌, ◌≤◌, ◌<◌, length, get_or, replicate};
ghost use Rattle.block_tables.specs.Table.{spaced, halves, selector, selector_at, Selectors};

// The numbers 0 to 15 with their bits as digits of 16, the highest bit as the lowest digit.
const HALVES: [u32; 16] = [
    0, 4096, 256, 4352, 16, 4112, 272, 4368, 1, 4097, 257, 4353, 17, 4113, 273, 4369,
];

fn half(v: u8) -> u32
    requires { v < 16 }
    ensures { result ≡ get_or halves v 0 }
{
    HALVES[usize::from(v)]
}

// The bits of k as digits of 16, the highest bit as the lowest digit: those of the low four bits above those of the high four.
fn spaced(k: u8) -> u32
    ensures { (result ≡ spaced 8 k) × (result ≤ 286331153) }
{
    half(k % 16) * 65536 + half(k / 16)
}

// The same of four constants: a digit has a bit of each.
fn selector(a: u8, b: u8, c: u8, d: u8) -> u32
    ensures { result ≡ selector 8 a b c d }
{
    spaced(a) + spaced(b) * 2 + spaced(c) * 4 + spaced(d) * 8
}

// Constant j, or 0 past the last.
fn constant(k: &[u8], j: usize) -> u8
    ensures { result ≡ get_or k.now j 0 }
{
    k.get(j).copied().unwrap_or(0)
}

// The selectors of a row of constants, written over zeros.
fn row_selectors(k: &[u8], found: &mut [u32])
    requires k_len_bound { (length k.now ≤ 240) × (length found.old ≡ 60) }
    requires by_index { (s : ℕ) → s < 60 → get_or found.old s 0 ≡ 0 }
    ensures { (s : ℕ) → s < 60 → get_or found.new s 0 ≡ selector_at k.now s }
{
    for s in 0..k.len().div_ceil(4) {
        let j = s * 4;
        found[s] = selector(
            constant(k, j),
            constant(k, j + 1),
            constant(k, j + 2),
            constant(k, j + 3),
        );
    }
}

// The selectors of every row.
fn selectors_of(count: usize, rows: usize, constants: &[u8]) -> [u32; 240]
    requires { (count ≤ 240) × (rows ≤ 4) × (rows * count ≤ length constants.now) }
    ensures { Selectors count rows constants.now result }
{
    let mut found = [0u32; 240];
    for r in 0..rows {
        let a = r * count;
        let b = r * 60;
        row_selectors(&constants[a..a + count], &mut found[b..b + 60]);
    }
    found
}

// The same for at most 240 constants a row and at most four rows that are there; zeros for others.
pub fn selectors(count: usize, rows: usize, constants: &[u8]) -> [u32; 240]
    ensures selectors { count ≤ 240 → rows ≤ 4 → rows * count ≤ length constants.now → Selectors count rows constants.now result }
    ensures value { (count ≤ 240 → rows ≤ 4 → rows * count ≤ length constants.now → ⊥) → result ≡ replicate 240 0 }
{
    let none = [0u32; 240];
    if 240 < count || 4 < rows || constants.len() < rows * count {
        return none;
    }
    selectors_of(count, rows, constants)
}
