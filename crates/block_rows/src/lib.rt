// The rows of a block rebuild: the equations of every group, reduced at its bound places.

#![tactic(auto)]

ghost use Rattle.std.specs.Prelude.{◌≡◌, ℕ, suc, ◌+◌, ◌*◌, ◌≤◌, ◌<◌, length, get_or, set, replicate};
ghost use Rattle.shape.specs.Shapes.{byte_limits};
ghost use Rattle.code.specs.Edition.{raised};
ghost use Rattle.code.specs.Word.{coefficient};
ghost use Rattle.code.specs.Marks.{lost_in};
ghost use Rattle.code.specs.Limits.{GoodIn};
ghost use Rattle.byte_edition.specs.Edition.{byte_edition};
ghost use Rattle.code_engine.specs.Elimination.{entry};
ghost use Rattle.block_constants.specs.Reduced.{ReducedTo};
ghost use Rattle.block_laws.specs.Group.{check_of, masked};
ghost use Rattle.block_laws.specs.Steps.{Coefficients, AcrossPut, AcrossRows, GroupKept, KeptUpTo};

// 1 at place j.
fn unit(j: usize) -> [u8; 16]
    requires { j < 16 }
    ensures { result ≡ set (replicate 16 0) j 1 }
{
    let mut e = [0u8; 16];
    e[j] = 1;
    e
}

// The coefficient of place j in the first sum across for c = i + 1.
fn first_coefficient(i: usize, j: usize) -> u8
    requires { (i < 4) × (j < 16) }
    ensures { result ≡ coefficient byte_edition (suc i) j }
{
    byte_edition::first_sum(&unit(j), i)
}

// The coefficients of the first sum across for c = i + 1.
pub fn first_row(i: usize) -> [u8; 16]
    requires { i < 4 }
    ensures { (j : ℕ) → j < 16 → get_or result j 0 ≡ coefficient byte_edition (suc i) j }
{
    std::array::from_fn(|j| first_coefficient(i, j))
}

// The coefficient of place j in the second sum across for c = i + 1, without the group's factor.
fn second_coefficient(i: usize, j: usize) -> u8
    requires { (i < 4) × (j < 16) }
    ensures { result ≡ raised byte_edition (coefficient byte_edition (suc i) j) 16 }
{
    byte_edition::second_sum(&unit(j), i)
}

// The coefficients of the second sum across for c = i + 1, without the group's factor.
pub fn second_row(i: usize) -> [u8; 16]
    requires { i < 4 }
    ensures { (j : ℕ) → j < 16 → get_or result j 0 ≡ raised byte_edition (coefficient byte_edition (suc i) j) 16 }
{
    std::array::from_fn(|j| second_coefficient(i, j))
}

// The equations of group g, reduced at its bound places.
fn group_rows(c: usize, g: usize, bound: &[u8], first: [u8; 16], second: [u8; 16]) -> [[u8; 16]; 6]
    requires in_bounds { (1 ≤ length bound.now) × (length bound.now ≤ 16) × (lost_in (length bound.now) bound.now 0 ≤ 4) }
    requires coefficients { Coefficients c first second }
    ensures { ReducedTo byte_edition (length bound.now) 6 bound.now (length bound.now) (lost_in (length bound.now) bound.now 0) (check_of c g) (entry result) }
{
    let f = gf256::power_of_two(g);
    let s = block_constants::scale(second, f);
    block_constants::group_rows(bound, first, s)
}

// Writes a row, with 0 at the bound places.
fn pack_row(row: [u8; 16], bound: &[u8], out: &mut [u8])
    requires { (length bound.now ≤ 16) × (length out.old ≡ length bound.now) }
    ensures out_len_unchanged { length out.new ≡ length out.old }
    ensures by_index { (j : ℕ) → j < length bound.now → get_or out.new j 0 ≡ masked bound.now (λ i. get_or row i 0) j }
{
    for (j, x) in out.iter_mut().enumerate() {
        *x = if bound[j] == 1 { 0 } else { row[j] };
    }
}

// Writes the first four rows, one after another, with 0 at the bound places.
fn pack(rows: [[u8; 16]; 6], bound: &[u8], out: &mut [u8])
    requires { (length bound.now ≤ 16) × (length out.old ≡ 4 * length bound.now) }
    ensures out_len { length out.new ≡ 4 * length bound.now }
    ensures by_index { (r : ℕ) → r < 4 → (j : ℕ) → j < length bound.now → get_or out.new (r * length bound.now + j) 0 ≡ masked bound.now (entry rows r) j }
{
    let w = bound.len();
    for r in 0..4 {
        let a = r * w;
        pack_row(rows[r], bound, &mut out[a..a + w]);
    }
}

// Writes the reduced rows of group g: the first four to kept, what it has in the two rows across to out.
fn put_group(
    m: usize,
    c: usize,
    g: usize,
    bound: &[u8],
    first: [u8; 16],
    second: [u8; 16],
    kept: &mut [u8],
    out: &mut [u8],
)
    requires in_bounds { (1 ≤ length bound.now) × (length bound.now ≤ 16) × (lost_in (length bound.now) bound.now 0 ≤ 4) × (m ≤ 15) × (g < m) × (length out.old ≡ 480) }
    requires kept_len { length kept.old ≡ 4 * length bound.now }
    requires coefficients { Coefficients c first second }
    ensures group_kept { GroupKept (length bound.now) c g bound.now kept.new }
    ensures across_put { AcrossPut m (length bound.now) c g bound.now out.old out.new }
{
    let w = bound.len();
    let rows = group_rows(c, g, bound, first, second);
    pack(rows, bound, kept);
    let a = g * w;
    pack_row(rows[4], bound, &mut out[a..a + w]);
    let b = (m + g) * w;
    pack_row(rows[5], bound, &mut out[b..b + w]);
}

// Writes the reduced rows of every group: the first four of each to kept, the two rows across to out, with 0 at the bound places.
pub fn make_rows(
    m: usize,
    w: usize,
    c: usize,
    bound: &[u8],
    first: [u8; 16],
    second: [u8; 16],
    kept: &mut [u8],
    out: &mut [u8],
)
    requires good_in { GoodIn byte_limits m w c }
    requires bound_len { (length bound.now ≡ m * w) × ((g : ℕ) → g < m → lost_in w bound.now g ≤ c) × (length out.old ≡ 480) × (length kept.old ≡ 960) }
    requires coefficients { Coefficients c first second }
    ensures kept_up_to { KeptUpTo w c m bound.now kept.new }
    ensures across_rows { AcrossRows m w c bound.now out.new }
{
    let v = 4 * w;
    for g in 0..m {
        let a = g * w;
        let b = g * v;
        put_group(
            m,
            c,
            g,
            &bound[a..a + w],
            first,
            second,
            &mut kept[b..b + v],
            out,
        );
    }
}
