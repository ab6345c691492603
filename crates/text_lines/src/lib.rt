// Lines printed and read.

#![tactic(auto)]

ghost use Rattle.std.specs.Prelude.{◌≡◌, [], map, ◌+◌, ◌*◌, ◌≤◌, ◌<◌, ◌%◌, ◌/◌, length, drop, not, ◌||◌, eqb, is_some, IfSome};
ghost use Rattle.text.specs.Lines.{cells, line_of, ok_line, refused_line, contradictory_line, word_line};
ghost use Rattle.text.specs.Written.{written};
ghost use Rattle.text_lines.specs.Holds.{HoldsLine};
ghost use Rattle.text_lines.specs.WordLine.{contradictory_word_line};
ghost use Rattle.std.proofs.lemmas.List.Edits.{sets};
ghost use Rattle.text.specs.Fields.{meaning, to_tab};
ghost use Rattle.text.specs.Records.{name_kind, bound_of, all_under, line_kind, values_from};
ghost use Rattle.text_lines.specs.Held.{HoldsRecord};
ghost use Rattle.text_lines.specs.Numbers.{is_numbers, HoldsNumbers};
ghost use Rattle.text_lines.specs.Kinds.{kind_number, kind_or_none, record_number};

// An output line with its line feed, at the start of a row of bytes with zeros after it.
#[derive(Clone, Copy)]
pub struct Line {
    pub bytes: [u8; 1024],
    pub length: usize,
}

// Writes numbers from a position on, each after a tab, and gives the position after them.
fn put_numbers(out: &mut [u8], at: usize, numbers: &[u8]) -> usize
    requires { at + 4 * length numbers.now ≤ length out.old }
    ensures next { result ≡ at + length (cells numbers.now) }
    ensures out { out.new ≡ written out.old at (cells numbers.now) }
{
    let mut next = at;
    for x in numbers {
        next = text::put_number(out, next, u32::from(*x));
    }
    next
}

// Writes a line at the start of a buffer, and gives its length.
fn put_line(out: &mut [u8], name: &[u8], numbers: &[u8]) -> usize
    requires { length name.now + 4 * length numbers.now < length out.old }
    ensures size { result ≡ length (line_of name.now numbers.now) }
    ensures most { result ≤ length out.old }
    ensures out { out.new ≡ written out.old 0 (line_of name.now numbers.now) }
{
    let at = text::put_text(out, 0, name);
    let end = put_numbers(out, at, numbers);
    out[end] = b'\n';
    end + 1
}

// The line of a name and its numbers.
fn line_of(name: &[u8], numbers: &[u8]) -> Line
    requires { length name.now + 4 * length numbers.now < 1024 }
    ensures { HoldsLine result (line_of name.now numbers.now) }
{
    let mut bytes = [0u8; 1024];
    let length = put_line(&mut bytes, name, numbers);
    Line { bytes, length }
}

// A refusal and its number.
pub fn refused(r: u8) -> Line
    ensures { HoldsLine result (refused_line r) }
{
    line_of(b"refused", &[r])
}

// The refusal 9 and the group that contradicts.
pub fn contradictory(group: u8) -> Line
    ensures { HoldsLine result (contradictory_line group) }
{
    line_of(b"refused", &[9, group])
}

// Writes a 9 with the number of a word and a group at the start of a buffer, and gives its length.
fn put_nine(out: &mut [u8], word: u32, group: u8) -> usize
    requires { 32 ≤ length out.old }
    ensures size { result ≡ length (contradictory_word_line word group) }
    ensures most { result ≤ length out.old }
    ensures out { out.new ≡ written out.old 0 (contradictory_word_line word group) }
{
    let a = text::put_text(out, 0, b"refused\t9");
    let b = text::put_number(out, a, word);
    let e = text::put_number(out, b, group as u32);
    out[e] = b'\n';
    e + 1
}

// The refusal 9, the number of a word and the group that contradicts. A number of more than 32 bits, which no word has, gives the empty line.
pub fn contradictory_word(word: usize, group: u8) -> Line
    ensures whole { word < 4294967296 → HoldsLine result (contradictory_word_line word group) }
    ensures none { 4294967296 ≤ word → HoldsLine result [] }
{
    let mut bytes = [0u8; 1024];
    let Ok(word) = u32::try_from(word) else {
        return Line { bytes, length: 0 };
    };
    let length = put_nine(&mut bytes, word, group);
    Line { bytes, length }
}

// The answer to a shape: n and k.
pub fn ok(n: u8, k: u8) -> Line
    ensures { HoldsLine result (ok_line n k) }
{
    line_of(b"ok", &[n, k])
}

// A word. One of more than 240 bytes, which no shape has, gives the empty line, without a line feed.
pub fn word(word: &[u8]) -> Line
    ensures whole { length word.now ≤ 240 → HoldsLine result (word_line word.now) }
    ensures none { 240 < length word.now → HoldsLine result [] }
{
    if 240 < word.len() {
        return Line {
            bytes: [0u8; 1024],
            length: 0,
        };
    }
    line_of(b"word", word)
}

// What a line gives.
#[derive(Clone, Copy, Debug, PartialEq, Eq)]
pub enum Kind {
    Shape,
    Data,
    Word,
}

// A line that can be read.
#[derive(Clone, Copy)]
pub struct Record {
    pub kind: Kind,
    // how many values
    pub count: usize,
    pub bytes: [u8; 1024],
    pub marks: [u8; 1024],
}

// The numbers of a line of one name.
#[derive(Clone, Copy)]
pub struct Numbers {
    // how many
    pub count: usize,
    pub bytes: [u8; 1024],
}

// What a field means: a number, 256 for a lost place, or 257.
fn meaning(field: &[u8]) -> u16
    ensures { result ≡ meaning field.now }
{
    if text::is_same(field, b"-") {
        return 256;
    }
    text::number(field, 256) as u16
}

// The kind of record that a name stands for.
fn name_kind(name: &[u8]) -> Option<Kind>
    ensures { kind_or_none result ≡ name_kind name.now }
{
    if text::is_same(name, b"shape") {
        return Some(Kind::Shape);
    }
    if text::is_same(name, b"data") {
        return Some(Kind::Data);
    }
    if text::is_same(name, b"word") {
        return Some(Kind::Word);
    }
    None
}

// What the field that starts at a place means.
fn value_at(line: &[u8], from: usize) -> u16
    requires { from ≤ length line.now }
    ensures { result ≡ meaning (to_tab (drop from line.now)) }
{
    let e = text::part_end(line, from, b'\t');
    meaning(&line[from..e])
}

// Whether all the fields after a place mean less than bound.
fn all_under(line: &[u8], from: usize, bound: u16) -> bool
    requires { from ≤ length line.now }
    ensures { result ≡ all_under bound (values_from from line.now) }
{
    let mut at = from;
    // A while loop: a field starts where the one before it ends, so the step is not fixed.
    while at < line.len() {
        if bound <= value_at(line, at + 1) {
            return false;
        }
        at = text::part_end(line, at + 1, b'\t');
    }
    true
}

// Writes the bytes and the marks of the fields after a place, and counts them.
fn write_values(line: &[u8], from: usize, bytes: &mut [u8], marks: &mut [u8]) -> usize
    requires from_in_bounds { from ≤ length line.now }
    requires line_in_bounds { length line.now ≤ length bytes.old }
    requires line_in_bounds_2 { length line.now ≤ length marks.old }
    ensures value { result ≡ length (values_from from line.now) }
    ensures bytes_after { bytes.new ≡ sets bytes.old 0 (map (λ v. v % 256) (values_from from line.now)) }
    ensures marks_after { marks.new ≡ sets marks.old 0 (map (λ v. v / 256) (values_from from line.now)) }
{
    let mut count: usize = 0;
    let mut at = from;
    // A while loop: a field starts where the one before it ends, so the step is not fixed.
    while at < line.len() {
        let v = value_at(line, at + 1);
        bytes[count] = (v % 256) as u8;
        marks[count] = (v / 256) as u8;
        count += 1;
        at = text::part_end(line, at + 1, b'\t');
    }
    count
}

// The bound on what a field of a record of this kind can mean.
fn bound_of(kind: Kind) -> u16
    ensures { result ≡ bound_of (kind_number kind) }
{
    match kind {
        Kind::Word => 257,
        _ => 256,
    }
}

// Whether a record of this kind can have so many values: a shape has exactly three.
fn is_count(kind: Kind, count: usize) -> bool
    ensures { result ≡ (not (eqb (kind_number kind) 1) || eqb count 3) }
{
    match kind {
        Kind::Shape => count == 3,
        _ => true,
    }
}

// The record of a line. A line of more than 1,024 bytes is not read.
pub fn parse(line: &[u8]) -> Option<Record>
    ensures kind { record_number result ≡ line_kind line.now }
    ensures values { IfSome result (λ read. HoldsRecord read line.now) }
{
    if 1024 < line.len() {
        return None;
    }
    let e = text::part_end(line, 0, b'\t');
    let kind = name_kind(&line[..e])?;
    if !all_under(line, e, bound_of(kind)) {
        return None;
    }
    let mut bytes = [0u8; 1024];
    let mut marks = [0u8; 1024];
    let count = write_values(line, e, &mut bytes, &mut marks);
    if !is_count(kind, count) {
        return None;
    }
    Some(Record {
        kind,
        count,
        bytes,
        marks,
    })
}

// The numbers of a line of this name, each 0 to 255. A line of another name, with another field or of more than 1,024 bytes is not read.
pub fn read_numbers(line: &[u8], name: &[u8]) -> Option<Numbers>
    ensures read { is_some result ≡ is_numbers name.now line.now }
    ensures values { IfSome result (λ numbers. HoldsNumbers numbers line.now) }
{
    if line.len() > 1024 {
        return None;
    }
    let e = text::part_end(line, 0, b'\t');
    if !text::is_same(&line[..e], name) {
        return None;
    }
    if !all_under(line, e, 256) {
        return None;
    }
    let mut bytes = [0u8; 1024];
    let mut marks = [0u8; 1024];
    let count = write_values(line, e, &mut bytes, &mut marks);
    Some(Numbers { count, bytes })
}
