// Sums of blocks times constants. A strip of 96 bytes of four blocks has sixteen sums, which make a table; every bit of a row of constants takes one
// of them, from the highest bit down, and what stands is doubled between. No step depends on a constant's value but for the place that it reads.

#![tactic(auto)]

ghost use Rattle.std.specs.Prelude.{◌≡◌, true, false, List, ℕ, ◌+◌, ◌*◌, ◌/◌, ◌%◌, ◌≤◌, ◌<◌, min, length, get_or};
ghost use Rattle.code.specs.Stretch.{stretch};
ghost use Rattle.block_sums.specs.Sums.{Named, ZeroUntil, Aimed, SumsWritten, StripSums, ZeroStrip, StripWritten};
ghost use Rattle.block_tables.specs.Table.{Selectors, IsTable, IsTables, RowMade, RowsMade, PartCopied, Loaded, TableMade, TablesMade};
ghost use Rattle.block_tables.specs.Table.{Stepped, turns, RowAdded, RowsAdded};

// The 96 bytes from b on become the sums of those from a1 and from a2 on.
fn add_rows(t: &mut [u8], a1: usize, a2: usize, b: usize)
    requires { (a1 + 96 ≤ b) × (a2 + 96 ≤ b) × (b + 96 ≤ 1536) × (length t.old ≡ 1536) }
    ensures { RowMade a1 a2 b t.old t.new }
{
    for i in 0..96 {
        t[b + i] = t[a1 + i] ^ t[a2 + i];
    }
}

// The rows h + 1 to 2h - 1, from the rows 1 to h.
fn more_rows(t: &mut [u8], h: usize)
    requires { (h ≤ 8) × (length t.old ≡ 1536) }
    ensures { RowsMade h t.old t.new }
{
    for u in 1..h {
        add_rows(t, h * 96, u * 96, (h + u) * 96);
    }
}

// Copies n bytes of one list, from a place on, to a place of another.
fn copy_part(blocks: &[u8], from: usize, n: usize, t: &mut [u8], h: usize)
    requires t_len_bound { (length t.old ≤ 65536) × (length blocks.now ≤ 65536) }
    requires n_in_bounds { (from + n ≤ length blocks.now) × (h + n ≤ length t.old) }
    ensures { PartCopied from n h blocks.now t.old t.new }
{
    buffers::copy_from_slice(&mut t[h..h + n], &blocks[from..from + n]);
}

// Copies the first bytes of up to four blocks, from a place on, to the rows 1, 2, 4, 8.
fn load(blocks: &[u8], size: usize, at: usize, have: usize, n: usize, t: &mut [u8])
    requires n_bound { (n ≤ 96) × (length t.old ≡ 1536) × (length blocks.now ≤ 65536) }
    requires by_index { (e : ℕ) → e < 4 → e < have → at + e * size + n ≤ length blocks.now }
    ensures { Loaded size at have n blocks.now t.old t.new }
{
    let mut h: usize = 96;
    for e in 0..have.min(4) {
        copy_part(blocks, at + e * size, n, t, h);
        h *= 2;
    }
}

// The table of up to four blocks.
fn make_table(blocks: &[u8], size: usize, at: usize, have: usize, n: usize, t: &mut [u8])
    requires n_bound { (n ≤ 96) × (length t.old ≡ 1536) × (length blocks.now ≤ 65536) }
    requires by_index { (e : ℕ) → e < 4 → e < have → at + e * size + n ≤ length blocks.now }
    requires table { IsTable t.old }
    ensures { TableMade size at have n blocks.now t.new }
{
    load(blocks, size, at, have, n, t);
    more_rows(t, 2);
    more_rows(t, 4);
    more_rows(t, 8);
}

// The tables of up to sixteen blocks; those of which there is no block stay.
fn make_tables(blocks: &[u8], size: usize, at: usize, have: usize, n: usize, t: &mut [u8])
    requires n_bound { (n ≤ 96) × (have ≤ 16) × (length t.old ≡ 6144) × (length blocks.now ≤ 65536) }
    requires by_index { (j : ℕ) → j < have → at + j * size + n ≤ length blocks.now }
    requires tables { IsTables t.old }
    ensures { TablesMade size at have n blocks.now t.new }
{
    for s in 0..have.div_ceil(4) {
        let j = s * 4;
        let a = s * 1536;
        make_table(
            blocks,
            size,
            at + j * size,
            have - j,
            n,
            &mut t[a..a + 1536],
        );
    }
}

// Every byte doubled, and the bytes of four rows added to it.
fn step(r: &mut [u8], t: &[u8], a: usize, b: usize, c: usize, d: usize)
    requires r_len { (length r.old ≡ 96) × (length t.now ≡ 6144) }
    requires a_bound { (a ≤ 6048) × (b ≤ 6048) × (c ≤ 6048) × (d ≤ 6048) }
    ensures { Stepped t.now a b c d r.old r.new }
{
    for i in 0..96 {
        r[i] = gf256::double(r[i]) ^ t[a + i] ^ t[b + i] ^ t[c + i] ^ t[d + i];
    }
}

// The row that the lowest digit names, where it begins.
fn row_start(v: u32) -> usize
    ensures { (result ≡ v % 16 * 96) × (result ≤ 1440) }
{
    ((v % 16) as usize) * 96
}

// The sums of the blocks of four tables times the constants that four selectors stand for.
fn row_sums(t: &[u8], a: u32, b: u32, c: u32, d: u32) -> [u8; 96]
    requires { length t.now ≡ 6144 }
    ensures { (i : ℕ) → i < 96 → get_or result i 0 ≡ turns t.now i 8 a b c d 0 }
{
    let mut r = [0u8; 96];
    let mut p = a;
    let mut q = b;
    let mut u = c;
    let mut v = d;
    for _ in 0..8usize {
        step(
            &mut r,
            t,
            row_start(p),
            row_start(q) + 1536,
            row_start(u) + 3072,
            row_start(v) + 4608,
        );
        p /= 16;
        q /= 16;
        u /= 16;
        v /= 16;
    }
    r
}

// Adds them to out.
fn add_row(t: &[u8], a: u32, b: u32, c: u32, d: u32, out: &mut [u8])
    requires { (length t.now ≡ 6144) × (length out.old ≡ 96) }
    ensures { RowAdded t.now a b c d out.old out.new }
{
    let r = row_sums(t, a, b, c, d);
    for (i, x) in out.iter_mut().enumerate() {
        *x ^= r[i];
    }
}

// So for each of the rows, by the four selectors from q on.
fn add_every_row(t: &[u8], found: &[u32], q: usize, rows: usize, sums: &mut [u8])
    requires t_len { (length t.now ≡ 6144) × (length found.now ≡ 240) × (length sums.old ≡ 384) }
    requires q_bound { (q ≤ 56) × (rows ≤ 4) }
    ensures { RowsAdded t.now found.now q rows sums.old sums.new }
{
    for r in 0..rows {
        let s = r * 60 + q;
        let a = r * 96;
        add_row(
            t,
            found[s],
            found[s + 1],
            found[s + 2],
            found[s + 3],
            &mut sums[a..a + 96],
        );
    }
}

// The sums of every row, n bytes from x on, sixteen blocks at a time.
fn strip_sums(
    blocks: &[u8],
    size: usize,
    first: usize,
    count: usize,
    rows: usize,
    found: &[u32],
    x: usize,
    n: usize,
    t: &mut [u8],
    sums: &mut [u8],
)
    requires blocks_len_bound { (length blocks.now ≤ 65536) × ((first + count) * size ≤ length blocks.now) × (count ≤ 240) × (rows ≤ 4) }
    requires n_bound { (x + n ≤ size) × (n ≤ 96) × (1 ≤ size) }
    requires found_len { (length found.now ≡ 240) × (length t.old ≡ 6144) × (length sums.old ≡ 384) × IsTables t.old }
    ensures t_len { (length t.new ≡ 6144) × IsTables t.new × (length sums.new ≡ 384) }
    ensures by_index { (constants : List ℕ) → rows * count ≤ length constants → ((p : ℕ) → get_or constants p 0 < 256) → Selectors count rows constants found.now → StripSums size blocks.now first count rows constants x n sums.new }
{
    sums.fill(0);
    for s in 0..count.div_ceil(16) {
        let j = s * 16;
        let have = (count - j).min(16);
        make_tables(blocks, size, (first + j) * size + x, have, n, t);
        add_every_row(t, found, j / 4, rows, sums);
    }
}

// Whether byte i of every row is 0.
fn zero_at(sums: &[u8], rows: usize, i: usize) -> bool
    requires { (length sums.now ≡ 384) × (rows ≤ 4) × (i < 96) }
    ensures i_value { result ≡ true → (k : ℕ) → k < rows → get_or sums.now (k * 96 + i) 0 ≡ 0 }
    ensures fact { result ≡ false → ((k : ℕ) → k < rows → get_or sums.now (k * 96 + i) 0 ≡ 0) → ⊥ }
{
    for k in 0..rows {
        if sums[k * 96 + i] != 0 {
            return false;
        }
    }
    true
}

// The lowest i below n at which a row is not 0; n if there is none.
fn zero_strip(sums: &[u8], rows: usize, n: usize) -> usize
    requires { (length sums.now ≡ 384) × (rows ≤ 4) × (n ≤ 96) }
    ensures { ZeroStrip rows n sums.now result }
{
    for i in 0..n {
        if !zero_at(sums, rows, i) {
            return i;
        }
    }
    n
}

// The lowest x below the limit at which one of the sums is not 0; the limit if there is none.
fn zero_strips(
    blocks: &[u8],
    size: usize,
    first: usize,
    count: usize,
    rows: usize,
    constants: &[u8],
    limit: usize,
) -> usize
    requires named { Named size blocks.now first count rows constants.now }
    requires limit_le_size { (limit ≤ size) × (size ≤ 65536) }
    ensures { ZeroUntil size blocks.now first count rows constants.now limit result }
{
    let found = block_tables::selectors(count, rows, constants);
    let mut t = [0u8; 6144];
    let mut sums = [0u8; 384];
    for q in 0..limit.div_ceil(96) {
        let x = q * 96;
        let n = (limit - x).min(96);
        strip_sums(
            blocks, size, first, count, rows, &found, x, n, &mut t, &mut sums,
        );
        let i = zero_strip(&sums, rows, n);
        if i < n {
            return x + i;
        }
    }
    limit
}

// Whether the blocks and the constants named are there; blocks of no byte are not looked at.
fn named(lent: usize, size: usize, first: usize, count: usize, rows: usize, laid: usize) -> bool
    ensures le_size { result ≡ true → (1 ≤ size) × (size ≤ 65536) × (lent ≤ 65536) × ((first + count) * size ≤ lent) × (count ≤ 240) × (rows ≤ 4) × (rows * count ≤ laid) }
    ensures fact { result ≡ false → 1 ≤ size → size ≤ 65536 → lent ≤ 65536 → (first + count) * size ≤ lent → count ≤ 240 → rows ≤ 4 → rows * count ≤ laid → ⊥ }
{
    if size == 0 || 65536 < size || 65536 < lent || 65536 < first || 240 < count || 4 < rows {
        return false;
    }
    if laid < rows * count {
        return false;
    }
    (first + count) * size <= lent
}

// The lowest x below the limit at which one of the sums is not 0; the limit if there is none. 0 if the blocks or the constants named are not there.
pub fn zero_until(
    blocks: &[u8],
    size: usize,
    first: usize,
    count: usize,
    rows: usize,
    constants: &[u8],
    limit: usize,
) -> usize
    ensures zero_until { Named size blocks.now first count rows constants.now → limit ≤ size → ZeroUntil size blocks.now first count rows constants.now limit result }
    ensures value { (Named size blocks.now first count rows constants.now → limit ≤ size → ⊥) → result ≡ 0 }
{
    if !named(blocks.len(), size, first, count, rows, constants.len()) {
        return 0;
    }
    if size < limit {
        return 0;
    }
    zero_strips(blocks, size, first, count, rows, constants, limit)
}

// Writes n bytes of every row of sums to its block, from x on.
fn write_strip(
    sums: &[u8],
    rows: usize,
    size: usize,
    x: usize,
    n: usize,
    to: [usize; 4],
    blocks: &mut [u8],
)
    requires sums_len { (length sums.now ≡ 384) × (rows ≤ 4) × (n ≤ 96) × (x + n ≤ size) × (length blocks.old ≤ 65536) }
    requires aimed { Aimed size blocks.old rows to }
    ensures { StripWritten size x n rows sums.now to blocks.old blocks.new }
{
    for i in 0..rows {
        copy_part(sums, i * 96, n, blocks, to[i] * size + x);
    }
}

// Writes every sum to its block, strip after strip.
fn write_strips(
    blocks: &mut [u8],
    size: usize,
    first: usize,
    count: usize,
    rows: usize,
    constants: &[u8],
    to: [usize; 4],
)
    requires named { Named size blocks.old first count rows constants.now }
    requires aimed { Aimed size blocks.old rows to }
    ensures { SumsWritten size blocks.old first count rows constants.now to blocks.new }
{
    let found = block_tables::selectors(count, rows, constants);
    let mut t = [0u8; 6144];
    let mut sums = [0u8; 384];
    for q in 0..size.div_ceil(96) {
        let x = q * 96;
        let n = (size - x).min(96);
        strip_sums(
            blocks, size, first, count, rows, &found, x, n, &mut t, &mut sums,
        );
        write_strip(&sums, rows, size, x, n, to, blocks);
    }
}

// Whether the blocks that the sums are to be written to are there.
fn aimed(lent: usize, size: usize, rows: usize, to: [usize; 4]) -> bool
    requires { (lent ≤ 65536) × (1 ≤ size) × (size ≤ 65536) × (rows ≤ 4) }
    ensures size_bound { result ≡ true → (i : ℕ) → i < rows → (get_or to i 0 + 1) * size ≤ lent }
    ensures fact { result ≡ false → ((i : ℕ) → i < rows → (get_or to i 0 + 1) * size ≤ lent) → ⊥ }
{
    for i in 0..rows {
        let p = to[i];
        if lent < p || lent < (p + 1) * size {
            return false;
        }
    }
    true
}

// Block to[i] becomes the sum by row i of the constants, for each of the rows; if two are the same block, the later sum stands. All else stays.
// Nothing changes if the blocks or the constants named are not there.
pub fn write_sums(
    blocks: &mut [u8],
    size: usize,
    first: usize,
    count: usize,
    rows: usize,
    constants: &[u8],
    to: [usize; 4],
)
    ensures sums_written { Named size blocks.old first count rows constants.now → Aimed size blocks.old rows to → SumsWritten size blocks.old first count rows constants.now to blocks.new }
    ensures blocks_unchanged { (Named size blocks.old first count rows constants.now → Aimed size blocks.old rows to → ⊥) → blocks.new ≡ blocks.old }
{
    if !named(blocks.len(), size, first, count, rows, constants.len()) {
        return;
    }
    if !aimed(blocks.len(), size, rows, to) {
        return;
    }
    write_strips(blocks, size, first, count, rows, constants, to);
}
