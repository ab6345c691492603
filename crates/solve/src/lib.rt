// Gauss-Jordan elimination over the field of bytes: up to four equations, with the right side in the fifth column; the columns after it are
// there because a row of sixteen bytes is one step of the vector unit.
// The rows come and go by value; between, they are lent, so that each step changes them in place.

#![tactic(auto)]

ghost use Rattle.std.specs.Prelude.{◌≡◌, IfSome, IfNone, ◌≤◌, ◌<◌, min, get_or};
ghost use Rattle.binary_field.specs.Inverse.{inverse};
ghost use Rattle.code_engine.specs.Elimination.{scaled, added, cleared, pivot, eliminate_column, eliminated};

// A row times f.
fn scale(row: &mut [u8; 16], f: u8)
    ensures { row.new ≡ scaled 8 285 f row.old }
{
    for x in row.iter_mut() {
        *x = gf256::shifted_product(*x, f);
    }
}

// Adds f times the row b.
fn add(row: &mut [u8; 16], b: &[u8; 16], f: u8)
    ensures { row.new ≡ added 8 285 f row.old b.now }
{
    for (c, x) in row.iter_mut().enumerate() {
        *x ^= gf256::shifted_product(b[c], f);
    }
}

// Adds the row b, of bytes.
fn sum(row: &mut [u8; 16], b: &[u8; 16])
    ensures { row.new ≡ added 8 285 1 row.old b.now }
{
    for (c, x) in row.iter_mut().enumerate() {
        *x ^= b[c];
    }
}

// The row times the inverse of its entry in column j; an entry of 1 leaves it as it is.
fn normalize(row: &mut [u8; 16], j: usize)
    requires { j < 4 }
    ensures { row.new ≡ scaled 8 285 (inverse 8 285 (get_or row.old j 0)) row.old }
{
    let d = row[j];
    if d != 1 {
        scale(row, gf256::inverse(d));
    }
}

// The row plus its entry in column j times the row b; an entry of 0 leaves it as it is, and one of 1 needs no product.
fn clear_row(row: &mut [u8; 16], b: &[u8; 16], j: usize)
    requires { j < 4 }
    ensures { row.new ≡ added 8 285 (get_or row.old j 0) row.old b.now }
{
    let f = row[j];
    if f == 0 {
        return;
    }
    if f == 1 {
        sum(row, b);
        return;
    }
    add(row, b, f);
}

// Clears column j in every row below t except row j.
fn clear(rows: &mut [[u8; 16]; 4], j: usize, t: usize)
    requires { (j < 4) × (t ≤ 4) }
    ensures { rows.new ≡ cleared 8 285 rows.old j t }
{
    let b = rows[j];
    for i in 0..t {
        if i != j {
            clear_row(&mut rows[i], &b, j);
        }
    }
}

// The first row from j on and below t whose entry in column j is not 0.
fn pivot(rows: &[[u8; 16]; 4], j: usize, t: usize) -> Option<usize>
    requires { (j < 4) × (j ≤ t) × (t ≤ 4) }
    ensures some { IfSome result (λ i. (i ≡ pivot rows.now j t) × (i < t)) }
    ensures none { IfNone result (t ≤ pivot rows.now j t) }
{
    for i in j..t {
        if rows[i][j] != 0 {
            return Some(i);
        }
    }
    None
}

// Column j made the column j of the identity, if it has a pivot.
fn eliminate_column(rows: &mut [[u8; 16]; 4], j: usize, t: usize)
    requires { (j < t) × (t ≤ 4) }
    ensures { rows.new ≡ eliminate_column 8 285 rows.old j t }
{
    if let Some(i) = pivot(rows, j, t) {
        rows.swap(j, i);
        normalize(&mut rows[j], j);
        clear(rows, j, t);
    }
}

// The columns below t in turn.
fn eliminate_columns(rows: &mut [[u8; 16]; 4], t: usize)
    requires { t ≤ 4 }
    ensures { rows.new ≡ eliminated 8 285 rows.old t }
{
    for j in 0..t {
        eliminate_column(rows, j, t);
    }
}

// Reduces the first t rows and columns to the identity, in every column that has a pivot; t above 4 is taken as 4.
pub fn eliminate(mut rows: [[u8; 16]; 4], t: usize) -> [[u8; 16]; 4]
    ensures { result ≡ eliminated 8 285 rows (min t 4) }
{
    eliminate_columns(&mut rows, t.min(4));
    rows
}
