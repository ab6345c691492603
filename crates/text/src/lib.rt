// Parts of a line between separators and decimals, read and put into a buffer.

#![tactic(auto)]

ghost use Rattle.std.specs.Prelude.{◌≡◌, ◌+◌, ◌≤◌, max, length, ◌∷◌};
ghost use Rattle.text.specs.Decimal.{digits_after, number_of, digit_after};
ghost use Rattle.text.specs.Fields.{same, end_of};
ghost use Rattle.text.specs.Decimal.{digits_of};
ghost use Rattle.text.specs.Written.{written, put_at, next_at};

// The place of the first separator from a place on, or the text's end.
pub fn part_end(text: &[u8], from: usize, sep: u8) -> usize
    ensures end { result ≡ end_of sep from text.now }
    ensures bounds { (from ≤ result) × (result ≤ max from (length text.now)) }
{
    for i in from..text.len() {
        if text[i] == sep {
            return i;
        }
    }
    from.max(text.len())
}

// Whether two texts are the same.
pub fn is_same(name: &[u8], wanted: &[u8]) -> bool
    ensures { result ≡ same name.now wanted.now }
{
    if name.len() != wanted.len() {
        return false;
    }
    // By the index: by the library's test of slices, a call for a few bytes, a lookup in a catalogue takes up to 1.1 times the instructions.
    for i in 0..name.len() {
        if name[i] != wanted[i] {
            return false;
        }
    }
    true
}

// The number a with one digit more, or bound + 1 if x is no digit or the number isn't below bound.
fn digit_after(bound: u32, a: usize, x: u8) -> usize
    requires { a ≤ bound }
    ensures { result ≡ digit_after bound a x }
{
    if x < 48 {
        return bound as usize + 1;
    }
    if 57 < x {
        return bound as usize + 1;
    }
    let n = 10 * a + (x as usize - 48);
    if n < bound as usize {
        n
    } else {
        bound as usize + 1
    }
}

// The number below bound that some digits make, or bound + 1.
fn digits(field: &[u8], bound: u32) -> usize
    ensures value { result ≡ digits_after bound 0 field.now }
    ensures most { result ≤ bound + 1 }
{
    let mut a: usize = 0;
    for x in field {
        a = digit_after(bound, a, *x);
        if bound as usize <= a {
            return bound as usize + 1;
        }
    }
    a
}

// The number below bound that a field is, or bound + 1.
pub fn number(field: &[u8], bound: u32) -> usize
    ensures value { result ≡ number_of bound field.now }
    ensures most { result ≤ bound + 1 }
{
    if field.is_empty() {
        return bound as usize + 1;
    }
    if 1 < field.len() {
        if field[0] == 48 {
            return bound as usize + 1;
        }
    }
    digits(field, bound)
}

// Writes a text from a position on.
fn write(out: &mut [u8], at: usize, text: &[u8])
    requires { at + length text.now ≤ length out.old }
    ensures { out.new ≡ written out.old at text.now }
{
    buffers::copy_from_slice(&mut out[at..at + text.len()], text);
}

// Puts a text at a position, and gives the position after it.
pub fn put_text(out: &mut [u8], at: usize, text: &[u8]) -> usize
    ensures next { result ≡ next_at out.old at text.now }
    ensures out { out.new ≡ put_at out.old at text.now }
{
    if out.len() < at {
        return at;
    }
    if out.len() - at < text.len() {
        return at;
    }
    write(out, at, text);
    at + text.len()
}

// How many digits a number has.
fn digit_count(x: u32) -> usize
    ensures { (result ≡ length (digits_of 9 x)) × (result ≤ 10) }
{
    let mut n: usize = 1;
    let mut rest = x;
    // A while loop: the quotient decides how many turns there are, and no range or list is gone over.
    while 10 <= rest {
        rest /= 10;
        n += 1;
    }
    n
}

// Writes the digits of a number between two positions, the last one first.
fn write_digits(out: &mut [u8], at: usize, end: usize, x: u32)
    requires { (end ≡ at + length (digits_of 9 x)) × (end ≤ length out.old) }
    ensures { out.new ≡ written out.old at (digits_of 9 x) }
{
    let mut i = end;
    let mut rest = x;
    // A while loop: the quotient decides how many turns there are, and no range or list is gone over.
    while 10 <= rest {
        i -= 1;
        out[i] = b'0' + (rest % 10) as u8;
        rest /= 10;
    }
    out[at] = b'0' + rest as u8;
}

// Puts a tab and a number at a position, and gives the position after them.
pub fn put_number(out: &mut [u8], at: usize, x: u32) -> usize
    ensures next { result ≡ next_at out.old at (9 ∷ digits_of 9 x) }
    ensures out { out.new ≡ put_at out.old at (9 ∷ digits_of 9 x) }
{
    let n = digit_count(x);
    if out.len() <= at {
        return at;
    }
    let start = at + 1;
    if out.len() - start < n {
        return at;
    }
    out[at] = b'\t';
    write_digits(out, start, start + n, x);
    start + n
}
