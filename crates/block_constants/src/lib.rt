// The constants of a rebuild: the equations of a group reduced at its lost places, and the rows for the one or two lost places that the
// equations across are needed for.

#![tactic(auto)]

ghost use Rattle.std.specs.Prelude.{◌≡◌, ℕ, ◌≤◌, ◌<◌, length, get_or};
ghost use Rattle.binary_field.specs.Xor.{◌⊕◌};
ghost use Rattle.byte_edition.specs.Edition.{byte_edition};
ghost use Rattle.code.specs.Edition.{times};
ghost use Rattle.code.specs.Marks.{lost_in};
ghost use Rattle.code_engine.specs.Elimination.{entry};
ghost use Rattle.block_constants.specs.Reduced.{ReducedTo, Pivoted};
ghost use Rattle.block_constants.specs.Equations.{equation_of};
ghost use Rattle.block_constants.specs.FreeRows.{with_at, mixed, first_of, second_of, Cleared, Mixed, one_test, one_value, two_first, two_second, OneRow, TwoRows};

// A row plus f times the row b.
fn add(row: [u8; 16], b: [u8; 16], f: u8) -> [u8; 16]
    ensures { (j : ℕ) → j < 16 → get_or result j 0 ≡ get_or row j 0 ⊕ times byte_edition (get_or b j 0) f }
{
    let mut r = row;
    for (j, x) in r.iter_mut().enumerate() {
        *x = row[j] ^ gf256::shifted_product(b[j], f);
    }
    r
}

// A row times f.
pub fn scale(row: [u8; 16], f: u8) -> [u8; 16]
    ensures { (j : ℕ) → j < 16 → get_or result j 0 ≡ times byte_edition (get_or row j 0) f }
{
    add([0u8; 16], row, f)
}

// The pivot row b in place of row t, and each other row plus its entry in column p times b.
fn clear(rows: [[u8; 16]; 6], b: [u8; 16], t: usize, p: usize) -> [[u8; 16]; 6]
    requires { p < 16 }
    ensures by_index { (i : ℕ) → i < 6 → i ≡ t → (j : ℕ) → j < 16 → entry result i j ≡ get_or b j 0 }
    ensures by_index_2 { (i : ℕ) → i < 6 → (i ≡ t → ⊥) → (j : ℕ) → j < 16 → entry result i j ≡ entry rows i j ⊕ times byte_edition (get_or b j 0) (entry rows i p) }
{
    let mut r = rows;
    for i in 0..6 {
        r[i] = if i == t {
            b
        } else {
            add(rows[i], b, rows[i][p])
        };
    }
    r
}

// Row t divided by its entry in column p, and that column cleared in the other rows.
fn pivot(rows: [[u8; 16]; 6], t: usize, p: usize) -> [[u8; 16]; 6]
    requires { (t < 6) × (p < 16) }
    ensures { Pivoted byte_edition 16 6 p t (entry rows) (entry result) }
{
    let row = rows[t];
    let f = gf256::inverse(row[p]);
    let b = scale(row, f);
    clear(rows, b, t, p)
}

// The six equations of a group: the first four local sums, and the two sums across, of which the coefficients are lent.
fn equations(first: [u8; 16], second: [u8; 16]) -> [[u8; 16]; 6]
    ensures { (i : ℕ) → i < 6 → (j : ℕ) → j < 16 → entry result i j ≡ equation_of first second i j }
{
    let a = byte_edition::power_row(0);
    let b = byte_edition::power_row(1);
    let c = byte_edition::power_row(2);
    let d = byte_edition::power_row(3);
    [a, b, c, d, first, second]
}

// The six equations, reduced at its bound places, where these are at most four of at most sixteen.
pub fn group_rows(bound: &[u8], first: [u8; 16], second: [u8; 16]) -> [[u8; 16]; 6]
    ensures { length bound.now ≤ 16 → 1 ≤ length bound.now → lost_in (length bound.now) bound.now 0 ≤ 4 → ReducedTo byte_edition (length bound.now) 6 bound.now (length bound.now) (lost_in (length bound.now) bound.now 0) (equation_of first second) (entry result) }
{
    let mut rows = equations(first, second);
    if 16 < bound.len() {
        return rows;
    }
    let mut t: usize = 0;
    for (p, b) in bound.iter().enumerate() {
        if *b == 1 && t < 4 {
            let next = pivot(rows, t, p);
            rows = next;
            t += 1;
        }
    }
    rows
}

// Both rows with 0 at place p.
fn clear_place(n: usize, p: usize, rows: [u8; 480]) -> [u8; 480]
    requires { (n ≤ 240) × (p < n) }
    ensures { Cleared n p rows result }
{
    let mut r = rows;
    r[p] = 0;
    r[n + p] = 0;
    r
}

// Writes a mixture of the two rows, n places from start on.
fn mix(n: usize, start: usize, rows: [u8; 480], f: u8, h: u8, out: [u8; 480]) -> [u8; 480]
    requires { (n ≤ 240) × (start ≤ 240) }
    ensures { Mixed n start f h rows out result }
{
    let mut r = out;
    for i in 0..n {
        r[start + i] = gf256::shifted_product(rows[i], f) ^ gf256::shifted_product(rows[n + i], h);
    }
    r
}

// One row, a mixture of the two without place p.
fn mix_one(n: usize, p: usize, across: [u8; 480], f: u8, h: u8) -> [u8; 480]
    requires { (n ≤ 240) × (p < n) }
    ensures { OneRow n (mixed f h (with_at p 0 (first_of across)) (with_at p 0 (second_of n across))) result }
{
    let rows = clear_place(n, p, across);
    mix(n, 0, rows, f, h, [0u8; 480])
}

// The constants of the test that is left with the one free place p; the rows as they are if n or p is out of range.
pub fn test_row(n: usize, p: usize, across: [u8; 480]) -> [u8; 480]
    ensures one_row { n ≤ 240 → p < n → OneRow n (one_test p (first_of across) (second_of n across)) result }
    ensures value { (n ≤ 240 → p < n → ⊥) → result ≡ across }
{
    if 240 < n || n <= p {
        return across;
    }
    let f = gf256::shifted_product(across[n + p], gf256::inverse(across[p]));
    mix_one(n, p, across, f, 1)
}

// The constants of the symbol at the one free place p; the rows as they are if n or p is out of range.
pub fn value_row(n: usize, p: usize, across: [u8; 480]) -> [u8; 480]
    ensures one_row { n ≤ 240 → p < n → OneRow n (one_value p (first_of across) (second_of n across)) result }
    ensures value { (n ≤ 240 → p < n → ⊥) → result ≡ across }
{
    if 240 < n || n <= p {
        return across;
    }
    let f = gf256::inverse(across[p]);
    mix_one(n, p, across, f, 0)
}

// Two rows, the constants of the symbols of two free places.
fn mix_two(n: usize, p: usize, q: usize, across: [u8; 480]) -> [u8; 480]
    requires { (n ≤ 240) × (p < n) × (q < n) }
    ensures { TwoRows n (two_first p (first_of across) (second_of n across) q) (two_second p (first_of across) (second_of n across) q) result }
{
    let a = across[p];
    let b = across[n + p];
    let c = across[q];
    let d = across[n + q];
    let i = gf256::inverse(gf256::shifted_product(a, d) ^ gf256::shifted_product(c, b));
    let one = clear_place(n, p, across);
    let rows = clear_place(n, q, one);
    let half = mix(
        n,
        0,
        rows,
        gf256::shifted_product(i, d),
        gf256::shifted_product(i, c),
        [0u8; 480],
    );
    mix(
        n,
        n,
        rows,
        gf256::shifted_product(i, b),
        gf256::shifted_product(i, a),
        half,
    )
}

// The same; the rows as they are if n, p or q is out of range.
pub fn value_rows(n: usize, p: usize, q: usize, across: [u8; 480]) -> [u8; 480]
    ensures two_rows { n ≤ 240 → p < n → q < n → TwoRows n (two_first p (first_of across) (second_of n across) q) (two_second p (first_of across) (second_of n across) q) result }
    ensures value { (n ≤ 240 → p < n → q < n → ⊥) → result ≡ across }
{
    if 240 < n || n <= p || n <= q {
        return across;
    }
    mix_two(n, p, q, across)
}
