// The input of the program that rebuilds blocks: three lines, then the blocks.

#![tactic(auto)]

ghost use Rattle.std.specs.Prelude.{◌≡◌, true, false, cond, ◌||◌, ◌+◌, ◌≤◌, ◌<◌, ltb, length, take, drop};
ghost use Rattle.answers.specs.Answers.{refused_number};
ghost use Rattle.text.specs.Records.{line_bytes};
ghost use Rattle.text_lines.specs.Holds.{HoldsLine};
ghost use Rattle.block_input.specs.declared.InputFailure.TheVariants.{Blocks};
ghost use Rattle.block_input.specs.Lines.{until_line_feed, next_start};
ghost use Rattle.block_input.specs.Length.{length_of};
ghost use Rattle.block_input.specs.Head.{shape_line_of, marks_line_refusal, head_refusal, later_line, line_refused};
ghost use Rattle.block_input.specs.Parts.{ReadMarks, ReadsLength, ReadsMarks, ReadsHead};
ghost use Rattle.block_input.specs.Output.{verdict_of, held_of};

use answers::Refusal;
use block_rebuild::Failure;
use shape::Bytes;
use text_lines::Line;

// The refusal stands beside the values, in no `Result`: `shape_line_of`, `ReadsLength` and `ReadsHead` (specs) say the values of refused lines too.

// The shape of a shape line, and its refusal, 0 for none.
#[derive(Clone, Copy)]
pub struct ShapeLine {
    pub refusal: u8,
    pub m: usize,
    pub w: usize,
    pub c: usize,
}

// The marks of a marks line, and its refusal.
#[derive(Clone, Copy)]
pub struct MarksLine {
    pub refusal: u8,
    pub count: usize,
    pub marks: [u8; 1024],
}

// What the length line and what follows it give: the refusal, L, and where the blocks start.
#[derive(Clone, Copy)]
pub struct LengthPart {
    pub refusal: u8,
    pub size: usize,
    pub start: usize,
}

// The same from the marks line on, with the marks.
#[derive(Clone, Copy)]
pub struct MarksPart {
    pub refusal: u8,
    pub count: usize,
    pub marks: [u8; 1024],
    pub size: usize,
    pub start: usize,
}

// The three lines of an input, and where the blocks start.
#[derive(Clone, Copy)]
pub struct Head {
    pub refusal: u8,
    pub m: usize,
    pub w: usize,
    pub c: usize,
    pub count: usize,
    pub marks: [u8; 1024],
    pub size: usize,
    pub start: usize,
}

// Why the blocks of an input are not mended: one of its lines is refused, by its number (14 is no `Refusal`), or the blocks are.
#[derive(Clone, Copy, Debug, PartialEq, Eq)]
pub enum InputFailure {
    Line(u8),
    Blocks(Failure),
}

impl From<Failure> for InputFailure {
    ghost from_gives = { λ failure unmended. unmended ≡ Blocks failure };

    fn from(failure: Failure) -> InputFailure {
        InputFailure::Blocks(failure)
    }
}

// The number of a refusal, 0 for none. A line that cannot be read is 14 here, which no answer is, so the lines keep numbers.
fn number(answer: Result<(), Refusal>) -> u8
    ensures { result ≡ refused_number answer }
{
    match answer {
        Ok(()) => 0,
        Err(e) => e.number(),
    }
}

// The length of the first line.
fn line_end(input: &[u8]) -> usize
    ensures { result ≡ length (until_line_feed input.now) }
{
    text::part_end(input, 0, b'\n')
}

// Where the next line starts, after one that ends at a place of an input of this length.
fn next_start(end: usize, size: usize) -> usize
    ensures { result ≡ next_start end size }
{
    if end < size { end + 1 } else { end }
}

// Whether a line that ends at a place of an input of this length is settled.
fn is_settled(ended: bool, end: usize, size: usize) -> bool
    ensures { result ≡ (ended || (ltb end size || ltb 1024 size)) }
{
    ended || end < size || 1024 < size
}

// Reads a shape line.
fn read_shape(line: &[u8]) -> ShapeLine
    ensures { result ≡ shape_line_of line.now }
{
    let unread = ShapeLine {
        refusal: 14,
        m: 0,
        w: 0,
        c: 0,
    };
    let Some(record) = text_lines::parse(line) else {
        return unread;
    };
    let text_lines::Kind::Shape = record.kind else {
        return unread;
    };
    let bytes = record.bytes;
    let m = bytes[0] as usize;
    let w = bytes[1] as usize;
    let c = bytes[2] as usize;
    ShapeLine {
        refusal: number(shape::shape_refusal::<Bytes>(m, w, c)),
        m,
        w,
        c,
    }
}

// Reads a marks line of a shape.
fn read_marks(line: &[u8], m: usize, w: usize, c: usize) -> MarksLine
    ensures { ReadMarks line.now m w c result }
{
    let Some(numbers) = text_lines::read_numbers(line, b"marks") else {
        return MarksLine {
            refusal: 14,
            count: 0,
            marks: [0; 1024],
        };
    };
    let marks = numbers.bytes;
    let count = numbers.count;
    MarksLine {
        refusal: number(marks::marks_refusal::<Bytes>(m, w, c, &marks[..count])),
        count,
        marks,
    }
}

// L of a length line, or 65,538.
fn read_length(line: &[u8]) -> usize
    ensures { result ≡ length_of line.now }
{
    if 1024 < line.len() {
        return 65538;
    }
    match line.strip_prefix(b"length\t") {
        Some(number) => text::number(number, 65537),
        None => 65538,
    }
}

// A refusal where it applies, else 0.
fn refusal_if(test: bool, refusal: u8) -> u8
    ensures { result ≡ cond test refusal 0 }
{
    if test { refusal } else { 0 }
}

// Reads from the length line on.
fn read_length_part(ended: bool, rest: &[u8]) -> LengthPart
    ensures { ReadsLength ended rest.now result }
{
    let end = line_end(rest);
    let size = read_length(&rest[..end]);
    let start = next_start(end, rest.len());
    let settled = is_settled(ended, end, rest.len());
    let refusal = refusal_if(65536 < size, 14);
    LengthPart {
        refusal: refusal_if(settled, refusal),
        size,
        start,
    }
}

// Reads from the marks line on.
fn read_marks_part(ended: bool, rest: &[u8], m: usize, w: usize, c: usize) -> MarksPart
    ensures { ReadsMarks ended m w c rest.now result }
{
    let end = line_end(rest);
    let line = read_marks(&rest[..end], m, w, c);
    let start = next_start(end, rest.len());
    let after = read_length_part(ended, &rest[start..]);
    let settled = is_settled(ended, end, rest.len());
    let refusal = answers::or_else(line.refusal, after.refusal);
    let marks = line.marks;
    MarksPart {
        refusal: refusal_if(settled, refusal),
        count: line.count,
        marks,
        size: after.size,
        start: start + after.start,
    }
}

// Reads the three lines of an input.
fn read_head(ended: bool, input: &[u8]) -> Head
    ensures { ReadsHead ended input.now result }
{
    let end = line_end(input);
    let line = read_shape(&input[..end]);
    let start = next_start(end, input.len());
    let after = read_marks_part(ended, &input[start..], line.m, line.w, line.c);
    let settled = is_settled(ended, end, input.len());
    let refusal = answers::or_else(line.refusal, after.refusal);
    let marks = after.marks;
    Head {
        refusal: refusal_if(settled, refusal),
        m: line.m,
        w: line.w,
        c: line.c,
        count: after.count,
        marks,
        size: after.size,
        start: start + after.start,
    }
}

// The refusal of an input of which more may come: of the lines that are settled, 0 for none so far.
pub fn refusal_so_far(input: &[u8]) -> u8
    ensures { result ≡ head_refusal false input.now }
{
    let head = read_head(false, input);
    head.refusal
}

// Which of the lines from the marks line on is refused first: 2 for that one, 3 if it is not refused.
fn later_line(rest: &[u8], m: usize, w: usize, c: usize) -> u8
    ensures { result ≡ later_line m w c rest.now }
{
    let end = line_end(rest);
    let line = read_marks(&rest[..end], m, w, c);
    if line.refusal == 0 { 3 } else { 2 }
}

// Which of the three lines of an input that is refused for one of them this is: 1 for the shape line, 2 for the marks line, 3 for the length line.
pub fn line_refused(input: &[u8]) -> u8
    ensures { result ≡ line_refused input.now }
{
    let end = line_end(input);
    let line = read_shape(&input[..end]);
    if line.refusal != 0 {
        return 1;
    }
    let start = next_start(end, input.len());
    later_line(&input[start..], line.m, line.w, line.c)
}

// The verdict on a whole input: where its blocks start, which are mended in place.
pub fn answer(input: &mut [u8]) -> Result<usize, InputFailure>
    ensures verdict { result ≡ verdict_of input.old }
    ensures input { input.new ≡ held_of input.old }
{
    let head = read_head(true, input);
    let refusal = head.refusal;
    if refusal != 0 {
        return Err(InputFailure::Line(refusal));
    }
    let mut marks = head.marks;
    let count = head.count;
    let start = head.start;
    block_rebuild::rebuild(
        head.m,
        head.w,
        head.c,
        head.size,
        &mut input[start..],
        &mut marks[..count],
    )?;
    Ok(start)
}
