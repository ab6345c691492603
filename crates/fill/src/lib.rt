// Fills the lost places of one group from its local equations; if t places are lost, the first t equations are used.

#![tactic(auto)]

ghost use Rattle.std.specs.Prelude.{◌≡◌, ◌≤◌, ◌<◌, length};
ghost use Rattle.byte_edition.specs.Edition.{byte_edition};
ghost use Rattle.code_engine.specs.Positions.{Inside, FoundLost};
ghost use Rattle.code_engine.specs.Placed.{placed};
ghost use Rattle.code_engine.specs.EquationsLaws.{EquationIn, EquationsIn};
ghost use Rattle.code_engine.specs.Filled.{FilledIn};
ghost use Rattle.fill.specs.OneLost.{with_others_sum};

// Writes the right side of row i at position at[i], for each i below t.
fn place(part: &mut [u8], at: [usize; 4], rows: [[u8; 16]; 4], t: usize)
    requires { (t ≤ 4) × Inside (length part.old) at t }
    ensures { part.new ≡ placed part.old at rows t }
{
    for i in 0..t {
        part[at[i]] = rows[i][4];
    }
}

// The equation e: the powers of the positions' locators, which are 1 for e 0, and the syndrome on the right side.
fn equation(part: &[u8], at: [usize; 4], t: usize, e: usize) -> [u8; 16]
    requires { (t ≤ 4) × (e < 4) × (length part.now ≤ 16) × Inside (length part.now) at t }
    ensures { EquationIn byte_edition part.now at t e result }
{
    let syndrome = byte_edition::power_sum(part, e);
    if e == 0 {
        return [1, 1, 1, 1, syndrome, 0, 0, 0, 0, 0, 0, 0, 0, 0, 0, 0];
    }
    let powers = byte_edition::power_row(e);
    [
        powers[at[0] % 16],
        powers[at[1] % 16],
        powers[at[2] % 16],
        powers[at[3] % 16],
        syndrome,
        0,
        0,
        0,
        0,
        0,
        0,
        0,
        0,
        0,
        0,
        0,
    ]
}

// The first t equations.
fn equations_of(part: &[u8], at: [usize; 4], t: usize) -> [[u8; 16]; 4]
    requires { (t ≤ 4) × (length part.now ≤ 16) × Inside (length part.now) at t }
    ensures { EquationsIn byte_edition part.now at t result }
{
    let mut rows = [[0u8; 16]; 4];
    for e in 0..t {
        rows[e] = equation(part, at, t, e);
    }
    rows
}

// Whether sums over so many places are fast enough as they are: sixteen are one step of the vector unit, and a few take no longer than padding.
fn sixteen_or_few(places: usize) -> bool {
    places < 5 || places == 16
}

// The same; any other part of fewer than sixteen places is padded.
fn equations(part: &[u8], at: [usize; 4], t: usize) -> [[u8; 16]; 4]
    requires { (t ≤ 4) × (length part.now ≤ 16) × Inside (length part.now) at t }
    ensures { EquationsIn byte_edition part.now at t result }
{
    if sixteen_or_few(part.len()) {
        return equations_of(part, at, t);
    }
    let x = byte_edition::padded(part);
    equations_of(&x, at, t)
}

// Fills the one lost place, at p, by equation 0: its coefficients are 1, so the byte is the sum of the others.
fn fill_one(part: &mut [u8], p: usize)
    requires { p < length part.old }
    ensures { part.new ≡ with_others_sum part.old p }
{
    part[p] = 0;
    part[p] = gf256::sum(part);
}

// Fills the lost places, if at most four of at most sixteen are lost; what stood there does not count. Else nothing changes.
pub fn fill(part: &mut [u8], marks: &[u8])
    ensures { FilledIn byte_edition marks.now part.old part.new }
{
    if 16 < part.len() {
        return;
    }
    if marks.len() != part.len() {
        return;
    }
    let erasures = erasures::find(marks);
    let t = erasures.count;
    if 4 < t {
        return;
    }
    if t == 0 {
        return;
    }
    let at = erasures.at;
    if t == 1 {
        fill_one(part, at[0]);
        return;
    }
    let zeros = [[0u8; 16]; 4];
    place(part, at, zeros, t);
    let rows = equations(part, at, t);
    let solution = solve::eliminate(rows, t);
    place(part, at, solution, t);
}
