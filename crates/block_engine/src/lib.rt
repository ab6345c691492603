// The engine of block rebuild: sums of whole blocks times constants that depend on the marks alone.

#![tactic(auto)]

ghost use Rattle.std.specs.Prelude.{◌≡◌, true, false, ℕ, ◌+◌, ◌*◌, ◌≤◌, ◌<◌, length};
ghost use Rattle.shape.specs.Shapes.{byte_limits};
ghost use Rattle.code.specs.Marks.{lost_in};
ghost use Rattle.code.specs.Stretch.{stretch};
ghost use Rattle.code.specs.Limits.{GoodIn};
ghost use Rattle.block_laws.specs.Group.{Mendable};
ghost use Rattle.code_engine.specs.BoundGroups.{BoundAll};
ghost use Rattle.block_constants.specs.FreeRows.{first_of, second_of};
ghost use Rattle.block_laws.specs.Free.{Completable};
ghost use Rattle.block_laws.specs.Ready.{Ready, Recoverable, FreeWritten, Restored, Mended};
ghost use Rattle.block_laws.specs.Steps.{Given, Limit, place_symbol, AcrossRows, GroupKept, KeptUpTo, Targets, GroupFilled, GroupsFilled};

use shape::Bytes;

// The lowest word below the limit that has no mending in group g; the limit if there is none.
fn test_group(
    c: usize,
    g: usize,
    size: usize,
    blocks: &[u8],
    bound: &[u8],
    kept: &[u8],
    limit: usize,
) -> usize
    requires in_bounds { (1 ≤ length bound.now) × (length bound.now ≤ 16) × (c ≤ 4) × (lost_in (length bound.now) bound.now 0 ≤ c) }
    requires g_bound { (g < 15) × ((g * length bound.now + length bound.now) * size ≤ length blocks.now) × (length blocks.now ≤ 65536) × (limit ≤ size) }
    requires group_kept { GroupKept (length bound.now) c g bound.now kept.now }
    ensures { Limit limit result (λ x. Mendable (length bound.now) c g bound.now (λ j. place_symbol size blocks.now x (g * length bound.now + j))) }
{
    let w = bound.len();
    let t = marks::lost_in(bound);
    if t == c {
        return limit;
    }
    let count = c - t;
    let a = t * w;
    let from = g * w;
    block_sums::zero_until(blocks, size, from, w, count, &kept[a..a + count * w], limit)
}

// The lowest word that has no mending in some group; the length of a block if there is none.
fn test_groups(
    m: usize,
    w: usize,
    c: usize,
    size: usize,
    blocks: &[u8],
    bound: &[u8],
    kept: &[u8],
) -> usize
    requires given { Given m w c size blocks.now bound.now }
    requires kept_up_to { KeptUpTo w c m bound.now kept.now }
    ensures { Limit size result (λ x. (g : ℕ) → g < m → Mendable w c g (stretch w g bound.now) (λ j. place_symbol size blocks.now x (g * w + j))) }
{
    let v = 4 * w;
    let mut limit = size;
    for g in 0..m {
        let a = g * w;
        let b = g * v;
        limit = test_group(c, g, size, blocks, &bound[a..a + w], &kept[b..b + v], limit);
    }
    limit
}

// The bound places of a group, in order, counted from base on.
fn targets(base: usize, bound: &[u8]) -> [usize; 4]
    requires { (base ≤ 240) × (length bound.now ≤ 16) }
    ensures { lost_in (length bound.now) bound.now 0 ≤ 4 → Targets base bound.now result (length bound.now) (lost_in (length bound.now) bound.now 0) }
{
    let mut to = [0usize; 4];
    let mut n: usize = 0;
    for (j, b) in bound.iter().enumerate() {
        if *b == 1 {
            if n < 4 {
                to[n] = base + j;
            }
            n += 1;
        }
    }
    to
}

// Fills the bound blocks of group g.
fn fill_group(c: usize, g: usize, size: usize, blocks: &mut [u8], bound: &[u8], kept: &[u8])
    requires in_bounds { (1 ≤ length bound.now) × (length bound.now ≤ 16) × (c ≤ 4) × (lost_in (length bound.now) bound.now 0 ≤ c) }
    requires g_bound { (g < 15) × ((g * length bound.now + length bound.now) * size ≤ length blocks.old) × (length blocks.old ≤ 65536) }
    requires group_kept { GroupKept (length bound.now) c g bound.now kept.now }
    ensures { GroupFilled (length bound.now) c size g bound.now blocks.old blocks.new }
{
    let w = bound.len();
    let t = marks::lost_in(bound);
    if t == 0 {
        return;
    }
    let from = g * w;
    let to = targets(from, bound);
    block_sums::write_sums(blocks, size, from, w, t, kept, to);
}

// Fills the bound blocks of every group.
fn fill_groups(
    m: usize,
    w: usize,
    c: usize,
    size: usize,
    blocks: &mut [u8],
    bound: &[u8],
    kept: &[u8],
)
    requires given { Given m w c size blocks.old bound.now }
    requires kept_up_to { KeptUpTo w c m bound.now kept.now }
    ensures { GroupsFilled w c size m bound.now blocks.old blocks.new }
{
    let v = 4 * w;
    for g in 0..m {
        let a = g * w;
        let b = g * v;
        fill_group(c, g, size, blocks, &bound[a..a + w], &kept[b..b + v]);
    }
}

// The lowest word below the limit whose sums across no symbols at the free places make zero.
fn test_across(
    m: usize,
    w: usize,
    c: usize,
    size: usize,
    blocks: &[u8],
    marks: &[u8],
    bound: &[u8],
    across: [u8; 480],
    limit: usize,
) -> usize
    requires ready { Ready m w c size (length blocks.now) marks.now }
    requires bound_all { BoundAll m w c marks.now bound.now }
    requires across_rows { AcrossRows m w c bound.now across }
    requires limit_le_size { limit ≤ size }
    ensures { Limit limit result (λ x. Completable (m * w) marks.now bound.now (first_of across) (second_of (m * w) across) (place_symbol size blocks.now x)) }
{
    let n = marks.len();
    let f = erasures::free_places(marks, bound);
    if f.count == 0 {
        return block_sums::zero_until(blocks, size, 0, n, 2, &across, limit);
    }
    if f.count == 1 {
        let row = block_constants::test_row(n, f.first, across);
        return block_sums::zero_until(blocks, size, 0, n, 1, &row, limit);
    }
    limit
}

// Writes the free blocks, by the two rows across.
fn write_across(
    m: usize,
    w: usize,
    c: usize,
    size: usize,
    blocks: &mut [u8],
    marks: &[u8],
    bound: &[u8],
    across: [u8; 480],
)
    requires ready { Ready m w c size (length blocks.old) marks.now }
    requires bound_all { BoundAll m w c marks.now bound.now }
    requires across_rows { AcrossRows m w c bound.now across }
    ensures { FreeWritten m w c size marks.now bound.now blocks.old blocks.new }
{
    let n = marks.len();
    let f = erasures::free_places(marks, bound);
    if f.count == 0 {
        return;
    }
    if f.count == 1 {
        let row = block_constants::value_row(n, f.first, across);
        block_sums::write_sums(blocks, size, 0, n, 1, &row, [f.first, 0, 0, 0]);
        return;
    }
    let rows = block_constants::value_rows(n, f.first, f.second, across);
    block_sums::write_sums(blocks, size, 0, n, 2, &rows, [f.first, f.second, 0, 0]);
}

// Copies the marks without those of the free places.
fn bind(m: usize, w: usize, c: usize, marks: &[u8], bound: &mut [u8])
    requires good_in { GoodIn byte_limits m w c }
    requires marks_len { (length marks.now ≡ m * w) × (length bound.old ≡ m * w) }
    ensures { BoundAll m w c marks.now bound.new }
{
    buffers::copy_from_slice(bound, marks);
    erasures::clear_free(w, c, bound);
}

// Whether the engine takes a call: a good shape, marks and blocks of its lengths, and an excess of at most two.
fn ready(m: usize, w: usize, c: usize, size: usize, lent: usize, marks: &[u8]) -> bool
    ensures ready { result ≡ true → Ready m w c size lent marks.now }
    ensures fact { result ≡ false → Ready m w c size lent marks.now → ⊥ }
{
    if shape::word_refusal::<Bytes>(m, w, c, marks.len()).is_err() {
        return false;
    }
    if size == 0 {
        return false;
    }
    if 65536 < size {
        return false;
    }
    let all = marks.len() * size;
    if 65536 < all {
        return false;
    }
    if lent != all {
        return false;
    }
    if 2 < marks::excess_of(m, w, c, marks) {
        return false;
    }
    true
}

// The lowest word with which no codeword agrees; the length of a block if there is none.
fn lowest_by(
    m: usize,
    w: usize,
    c: usize,
    size: usize,
    blocks: &[u8],
    marks: &[u8],
    bound: &[u8],
    kept: &[u8],
    across: [u8; 480],
) -> usize
    requires ready { Ready m w c size (length blocks.now) marks.now }
    requires bound_all { BoundAll m w c marks.now bound.now }
    requires kept_up_to { KeptUpTo w c m bound.now kept.now }
    requires across_rows { AcrossRows m w c bound.now across }
    ensures { Limit size result (Recoverable m w c size blocks.now marks.now) }
{
    let limit = test_groups(m, w, c, size, blocks, bound, kept);
    test_across(m, w, c, size, blocks, marks, bound, across, limit)
}

// Writes the lost blocks: every word with which a codeword agrees becomes that codeword.
fn restore_by(
    m: usize,
    w: usize,
    c: usize,
    size: usize,
    blocks: &mut [u8],
    marks: &[u8],
    bound: &[u8],
    kept: &[u8],
    across: [u8; 480],
)
    requires ready { Ready m w c size (length blocks.old) marks.now }
    requires bound_all { BoundAll m w c marks.now bound.now }
    requires kept_up_to { KeptUpTo w c m bound.now kept.now }
    requires across_rows { AcrossRows m w c bound.now across }
    ensures { Restored m w c size marks.now blocks.old blocks.new }
{
    write_across(m, w, c, size, blocks, marks, bound, across);
    fill_groups(m, w, c, size, blocks, bound, kept);
}

// The lowest word with which no codeword agrees, and nothing changes; the length of a block if there is none, and every word becomes its
// codeword. bound is room for the marks of the bound places.
fn mend_by(
    m: usize,
    w: usize,
    c: usize,
    size: usize,
    blocks: &mut [u8],
    marks: &[u8],
    bound: &mut [u8],
) -> usize
    requires ready { Ready m w c size (length blocks.old) marks.now }
    requires bound_len { length bound.old ≡ m * w }
    ensures { Mended m w c size marks.now result blocks.old blocks.new }
{
    bind(m, w, c, marks, bound);
    let first = block_rows::first_row(c - 1);
    let second = block_rows::second_row(c - 1);
    let mut kept = [0u8; 960];
    let mut across = [0u8; 480];
    block_rows::make_rows(m, w, c, bound, first, second, &mut kept, &mut across);
    let x = lowest_by(m, w, c, size, blocks, marks, bound, &kept, across);
    if x < size {
        return x;
    }
    restore_by(m, w, c, size, blocks, marks, bound, &kept, across);
    x
}

// The same by the marks alone.
fn mend_of(m: usize, w: usize, c: usize, size: usize, blocks: &mut [u8], marks: &[u8]) -> usize
    requires { Ready m w c size (length blocks.old) marks.now }
    ensures { Mended m w c size marks.now result blocks.old blocks.new }
{
    let n = marks.len();
    let mut bound = [0u8; 240];
    mend_by(m, w, c, size, blocks, marks, &mut bound[..n])
}

// The same; 0 for a call that the engine does not take, which changes nothing.
pub fn mend(m: usize, w: usize, c: usize, size: usize, blocks: &mut [u8], marks: &[u8]) -> usize
    ensures mended { Ready m w c size (length blocks.old) marks.now → Mended m w c size marks.now result blocks.old blocks.new }
    ensures value { (Ready m w c size (length blocks.old) marks.now → ⊥) → (result ≡ 0) × (blocks.new ≡ blocks.old) }
{
    if ready(m, w, c, size, blocks.len(), marks) {
        return mend_of(m, w, c, size, blocks, marks);
    }
    0
}
