// A line of a catalogue's text, read, and put into the text in place.

#![tactic(auto)]

ghost use Rattle.std.specs.Prelude.{◌≡◌, ◌≤◌, ◌+◌, ◌-◌, ◌<◌, length, take, drop, [], ◌∷◌, ◌++◌};
ghost use Rattle.catalogue_text.specs.Names.{name_byte, good_name, before};
ghost use Rattle.catalogue_lines.specs.Reading.{read_line, field_after, line_if, gone_after, gone_if};
ghost use Rattle.text.specs.Decimal.{digits_of};
ghost use Rattle.text.specs.Lines.{cells_of, line_with};
ghost use Rattle.text.specs.Written.{written};
ghost use Rattle.catalogue_text.specs.Catalogue.{Entry, first_line, entry_line};
ghost use Rattle.catalogue_lines.specs.Splice.{SpliceFits, spliced_in, HoldsRow};

use shape::Shape;

// A line as it is read: the length of its name, its revision and its shape, zeros if the name is gone.
#[derive(Clone, Copy, Debug, PartialEq, Eq)]
pub struct Line {
    pub size: usize,
    pub revision: u16,
    pub m: u8,
    pub w: u8,
    pub c: u8,
}

// A number, and the end of its field.
#[derive(Clone, Copy)]
struct Field {
    value: usize,
    end: usize,
}

// Whether a byte is a letter a to z, a digit or a hyphen.
fn is_name_byte(x: u8) -> bool
    ensures { result ≡ name_byte x }
{
    x.is_ascii_lowercase() || x.is_ascii_digit() || x == b'-'
}

// Whether a name is 1 to 16 such bytes.
pub fn is_name(name: &[u8]) -> bool
    ensures { result ≡ good_name name.now }
{
    if name.is_empty() || 16 < name.len() {
        return false;
    }
    name.iter().all(|x| is_name_byte(*x))
}

// Whether a name stands before another in byte order.
pub fn is_before(name: &[u8], other: &[u8]) -> bool
    ensures { result ≡ before name.now other.now }
{
    // By the index: by the library's comparison of slices a lookup takes 1.2 times the instructions.
    for i in 0..name.len().min(other.len()) {
        if name[i] != other[i] {
            return name[i] < other[i];
        }
    }
    name.len() < other.len()
}

// The number after the tab at a place, and the end of its field.
fn field_after(line: &[u8], at: usize) -> Field
    ensures value { result ≡ field_after at line.now }
    ensures most { at ≤ length line.now → result.end ≤ length line.now }
{
    if line.len() <= at {
        return Field {
            value: 65537,
            end: at,
        };
    }
    let start = at + 1;
    let end = text::part_end(line, start, b'\t');
    Field {
        value: text::number(&line[start..end], 65536),
        end,
    }
}

// The line of these numbers, if they are good.
fn line_if(size: usize, revision: usize, m: usize, w: usize, c: usize) -> Option<Line>
    ensures { result ≡ line_if size revision m w c }
{
    let Ok(revision) = u16::try_from(revision) else {
        return None;
    };
    if revision == 0 {
        return None;
    }
    match Shape::new(m, w, c) {
        Err(_) => None,
        Ok(s) => Some(Line {
            size,
            revision,
            m: s.m,
            w: s.w,
            c: s.c,
        }),
    }
}

// Whether the word gone, and nothing else, stands behind the tab at a place.
fn is_gone(line: &[u8], at: usize) -> bool
    ensures { result ≡ gone_after at line.now }
{
    if line.len() <= at {
        return false;
    }
    let start = at + 1;
    text::is_same(&line[start..], b"gone")
}

// The line of a name that is gone, if its revision is good.
fn gone_if(size: usize, revision: usize) -> Option<Line>
    ensures { result ≡ gone_if size revision }
{
    let Ok(revision) = u16::try_from(revision) else {
        return None;
    };
    if revision == 0 {
        return None;
    }
    Some(Line {
        size,
        revision,
        m: 0,
        w: 0,
        c: 0,
    })
}

// What a line, without its line feed, is read as, if it can be read.
pub fn read_line(line: &[u8]) -> Option<Line>
    ensures { result ≡ read_line line.now }
{
    let size = text::part_end(line, 0, b'\t');
    if !is_name(&line[..size]) {
        return None;
    }
    let revision = field_after(line, size);
    if is_gone(line, revision.end) {
        return gone_if(size, revision.value);
    }
    let m = field_after(line, revision.end);
    let w = field_after(line, m.end);
    let c = field_after(line, w.end);
    if c.end < line.len() {
        return None;
    }
    line_if(size, revision.value, m.value, w.value, c.value)
}

// A line with its line feed, at the start of a row of bytes with zeros after it.
#[derive(Clone, Copy)]
pub struct Row {
    pub bytes: [u8; 48],
    pub length: usize,
}

// Moves the bytes between two places down to a place not after them.
pub fn move_down(buffer: &mut [u8], from: usize, end: usize, to: usize)
    requires { (to ≤ from) × (from ≤ end) × (end ≤ length buffer.old) }
    ensures { buffer.new ≡ written buffer.old to (take (end - from) (drop from buffer.old)) }
{
    for i in from..end {
        buffer[to + (i - from)] = buffer[i];
    }
}

// Moves the bytes between two places up to a place not before them, the last one first.
fn move_up(buffer: &mut [u8], from: usize, end: usize, to: usize)
    requires { (from ≤ to) × (from ≤ end) × (to + (end - from) ≤ length buffer.old) }
    ensures { buffer.new ≡ written buffer.old to (take (end - from) (drop from buffer.old)) }
{
    for i in (from..end).rev() {
        buffer[to + (i - from)] = buffer[i];
    }
}

// Moves the bytes between two places to another place.
fn move_bytes(buffer: &mut [u8], from: usize, end: usize, to: usize)
    requires { (from ≤ end) × (end ≤ length buffer.old) × (to + (end - from) ≤ length buffer.old) }
    ensures { buffer.new ≡ written buffer.old to (take (end - from) (drop from buffer.old)) }
{
    if to <= from {
        move_down(buffer, from, end, to);
        return;
    }
    move_up(buffer, from, end, to);
}

// Puts a line in the place of the bytes from one place to another of a text of so many bytes.
pub fn splice(buffer: &mut [u8], size: usize, from: usize, to: usize, line: &[u8])
    requires { SpliceFits buffer.old size from to line.now }
    ensures { buffer.new ≡ spliced_in buffer.old size from to line.now }
{
    let start = from + line.len();
    move_bytes(buffer, to, size, start);
    text::put_text(buffer, from, line);
}

// Writes four numbers from a position on, each after a tab, and gives the position after them.
fn put_four(out: &mut [u8], at: usize, first: u16, second: u8, third: u8, fourth: u8) -> usize
    requires { at + 24 ≤ length out.old }
    ensures next { result ≡ at + length (cells_of 4 (first ∷ second ∷ third ∷ fourth ∷ [])) }
    ensures out { out.new ≡ written out.old at (cells_of 4 (first ∷ second ∷ third ∷ fourth ∷ [])) }
{
    let b = text::put_number(out, at, first as u32);
    let c = text::put_number(out, b, second as u32);
    let d = text::put_number(out, c, third as u32);
    text::put_number(out, d, fourth as u32)
}

// A text of at most 16 bytes, a tab and a number, and another such text.
fn row_with(front: &[u8], number: u16, back: &[u8]) -> Row
    requires { (length front.now ≤ 16) × (length back.now ≤ 16) }
    ensures { HoldsRow result ((front.now ++ (9 ∷ digits_of 4 number)) ++ back.now) }
{
    let mut bytes = [0u8; 48];
    let at = text::put_text(&mut bytes, 0, front);
    let next = text::put_number(&mut bytes, at, number as u32);
    let end = text::put_text(&mut bytes, next, back);
    Row { bytes, length: end }
}

// The first line of version 2.
pub fn first_line(floor: u16) -> Row
    ensures { HoldsRow result (first_line 2 floor) }
{
    row_with(b"shapes\t2", floor, b"\n")
}

// The line of a name of at most 16 bytes with its revision and its shape.
fn shaped_line(name: &[u8], revision: u16, m: u8, w: u8, c: u8) -> Row
    requires { length name.now ≤ 16 }
    ensures { HoldsRow result (line_with 4 name.now (revision ∷ m ∷ w ∷ c ∷ [])) }
{
    let mut bytes = [0u8; 48];
    let at = text::put_text(&mut bytes, 0, name);
    let end = put_four(&mut bytes, at, revision, m, w, c);
    bytes[end] = b'\n';
    Row {
        bytes,
        length: end + 1,
    }
}

// The line of a name of at most 16 bytes with its revision and its shape, or the word gone if m is 0.
pub fn entry_line(name: &[u8], revision: u16, m: u8, w: u8, c: u8) -> Row
    requires { length name.now ≤ 16 }
    ensures { HoldsRow result (entry_line (record { name = name.now; revision = revision; m = m; w = w; c = c })) }
{
    if m == 0 {
        return row_with(name, revision, b"\tgone\n");
    }
    shaped_line(name, revision, m, w, c)
}
