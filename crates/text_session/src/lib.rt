// One line and the shape in force into one output line and the next shape in force.

#![tactic(auto)]

ghost use Rattle.std.specs.Prelude.{◌≡◌, ◌≤◌, length};
ghost use Rattle.code.specs.Limits.{place_count};
ghost use Rattle.text.specs.Lines.{ok_line, word_line};
ghost use Rattle.text_session.specs.Turn.{turn, refused_turn, contradictory_turn, shape_turn, data_turn, word_turn, turn_of};
ghost use Rattle.text_session.specs.Replies.{Replies};

use answers::Refusal;
use shape::Bytes;
use text_lines::{Kind, Line};

// An output line with its line feed, at the start of a row of bytes with zeros after it, and the shape then in force; m is 0 for no shape yet.
#[derive(Clone, Copy)]
pub struct Reply {
    pub bytes: [u8; 1024],
    pub length: usize,
    pub m: usize,
    pub w: usize,
    pub c: usize,
}

// A line, and the shape in force after it.
fn reply_with(line: Line, m: usize, w: usize, c: usize) -> Reply
    ensures { result ≡ record { bytes = line.bytes; length = line.length; m = m; w = w; c = c } }
{
    let bytes = line.bytes;
    Reply {
        bytes,
        length: line.length,
        m,
        w,
        c,
    }
}

// A refusal, which leaves the shape in force.
fn refuse(number: u8, m: usize, w: usize, c: usize) -> Reply
    ensures { Replies result (refused_turn number m w c) }
{
    let line = text_lines::refused(number);
    reply_with(line, m, w, c)
}

// A 9 with the group that contradicts, which leaves the shape in force.
fn contradict(group: u8, m: usize, w: usize, c: usize) -> Reply
    ensures { Replies result (contradictory_turn group m w c) }
{
    let line = text_lines::contradictory(group);
    reply_with(line, m, w, c)
}

// A word of at most 240 bytes.
fn reply_word(word: &[u8], m: usize, w: usize, c: usize) -> Reply
    requires { length word.now ≤ 240 }
    ensures { Replies result (turn (word_line word.now) m w c) }
{
    let line = text_lines::word(word);
    reply_with(line, m, w, c)
}

// The figures of a good shape, which it puts in force.
fn reply_figures(n: usize, k: usize, m: usize, w: usize, c: usize) -> Reply
    requires { (n ≤ 255) × (k ≤ 255) }
    ensures { Replies result (turn (ok_line n k) m w c) }
{
    let line = text_lines::ok(n as u8, k as u8);
    reply_with(line, m, w, c)
}

// The answer to a shape a, b, d.
fn answer_shape(a: usize, b: usize, d: usize, m: usize, w: usize, c: usize) -> Reply
    ensures { Replies result (shape_turn a b d m w c) }
{
    match shape::describe::<Bytes>(a, b, d) {
        Ok(figures) => reply_figures(figures.n, figures.k, a, b, d),
        Err(unshaped) => refuse(unshaped.number(), m, w, c),
    }
}

// The answer to data, encoded in room for a word.
fn encode_in(bytes: &[u8], word: &mut [u8], m: usize, w: usize, c: usize) -> Reply
    requires { length word.old ≡ place_count m w }
    ensures { Replies result (data_turn bytes.now m w c) }
{
    match encode::encode(m, w, c, bytes, word) {
        Ok(()) => reply_word(word, m, w, c),
        Err(e) => refuse(e.number(), m, w, c),
    }
}

// The answer to data.
fn answer_data(bytes: &[u8], m: usize, w: usize, c: usize) -> Reply
    ensures { Replies result (data_turn bytes.now m w c) }
{
    match shape::describe::<Bytes>(m, w, c) {
        Ok(figures) => {
            let mut word = [0u8; 240];
            encode_in(bytes, &mut word[..figures.n], m, w, c)
        }
        Err(e) => refuse(e.number(), m, w, c),
    }
}

// The answer to a word and its marks, recovered in place.
fn answer_word(word: &mut [u8], marks: &mut [u8], m: usize, w: usize, c: usize) -> Reply
    ensures { Replies result (word_turn word.old marks.old m w c) }
{
    match recover::recover(m, w, c, word, marks) {
        Ok(()) => reply_word(word, m, w, c),
        Err(e) => match e {
            Refusal::Contradictory(group) => contradict(group, m, w, c),
            _ => refuse(e.number(), m, w, c),
        },
    }
}

// The answer to a line, given the shape in force, where m is 0 for none yet.
pub fn answer(line: &[u8], m: usize, w: usize, c: usize) -> Reply
    ensures { Replies result (turn_of line.now m w c) }
{
    let Some(record) = text_lines::parse(line) else {
        return refuse(14, m, w, c);
    };
    let kind = record.kind;
    let count = record.count;
    let mut bytes = record.bytes;
    let mut marks = record.marks;
    if let Kind::Shape = kind {
        return answer_shape(
            usize::from(bytes[0]),
            usize::from(bytes[1]),
            usize::from(bytes[2]),
            m,
            w,
            c,
        );
    }
    if m == 0 {
        return refuse(15, m, w, c);
    }
    match kind {
        Kind::Data => answer_data(&bytes[..count], m, w, c),
        _ => answer_word(&mut bytes[..count], &mut marks[..count], m, w, c),
    }
}
