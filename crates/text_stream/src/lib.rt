// The session over text lines, as its input comes in parts.

#![tactic(auto)]

ghost use Rattle.std.specs.Prelude.{◌≡◌, ◌+◌, ◌*◌, ◌≤◌, min, length, take};
ghost use Rattle.text.specs.Written.{written};
ghost use Rattle.text_stream.specs.Points.{clear, after_bytes, adds, closing, kept_point};
ghost use Rattle.text_stream.specs.States.{point_of};
ghost use Rattle.text_stream.specs.Places.{point_at, turn_on, ended_by, Taken, Passed};

// The line so far, of which 1,025 bytes are kept, and the shape in force; m is 0 for no shape yet. What stands past the length has no meaning.
// A length above 1,025 means the same as 1,025; start and take give none.
#[derive(Clone, Copy)]
pub struct State {
    pub line: [u8; 1025],
    pub length: usize,
    pub m: usize,
    pub w: usize,
    pub c: usize,
}

// The state after some bytes, and how many bytes at the start of the output buffer they add to the output.
#[derive(Clone, Copy)]
pub struct Step {
    pub state: State,
    pub length: usize,
}

// How long the line is, how much of the output buffer is used, and the shape in force.
#[derive(Clone, Copy)]
struct Place {
    length: usize,
    used: usize,
    m: usize,
    w: usize,
    c: usize,
}

// Writes a text at a position.
fn put(out: &mut [u8], at: usize, text: &[u8])
    requires { at + length text.now ≤ length out.old }
    ensures { out.new ≡ written out.old at text.now }
{
    buffers::copy_from_slice(&mut out[at..at + text.len()], text);
}

// Answers the line so far; the next one is empty.
fn end_line(line: &[u8], at: Place, out: &mut [u8]) -> Place
    requires length_in_bounds { at.length ≤ length line.now }
    requires length_in_bounds_2 { at.used + 12 * (at.length + 1) ≤ length out.old }
    ensures place { result ≡ ended_by (turn_on line.now at) at.used }
    ensures output { out.new ≡ written out.old at.used (turn_on line.now at).output }
{
    let length = at.length;
    let reply = text_session::answer(&line[..length], at.m, at.w, at.c);
    let size = reply.length;
    let bytes = reply.bytes;
    let used = at.used;
    put(out, used, &bytes[..size]);
    Place {
        length: 0,
        used: used + size,
        m: reply.m,
        w: reply.w,
        c: reply.c,
    }
}

// Takes a byte: a line feed ends the line, another is kept if there is room.
fn take_byte(line: &mut [u8], byte: u8, at: Place, out: &mut [u8]) -> Place
    requires line_len { (length line.old ≡ 1025) × (at.length ≤ 1025) }
    requires length_in_bounds { at.used + 12 * (at.length + 1) ≤ length out.old }
    ensures { Taken byte line.old at out.old line.new result out.new }
{
    if byte == b'\n' {
        return end_line(line, at, out);
    }
    let length = at.length;
    if length < 1025 {
        line[length] = byte;
        return Place {
            length: length + 1,
            ..at
        };
    }
    at
}

// Takes bytes of the input in order, starting with an empty output.
fn take_all(line: &mut [u8], bytes: &[u8], first: Place, out: &mut [u8]) -> Place
    requires line_len { (length line.old ≡ 1025) × (first.length ≤ 1025) × (first.used ≡ 0) }
    requires room { 12 * (first.length + length bytes.now) ≤ length out.old }
    ensures { Passed bytes.now (point_at line.old first) out.old line.new result out.new }
{
    let mut at = first;
    for byte in bytes {
        at = take_byte(line, *byte, at, out);
    }
    at
}

// The state before any input.
pub fn start() -> State
    ensures state { point_of result ≡ clear 0 0 0 }
    ensures fits { result.length ≤ 1025 }
{
    State {
        line: [0u8; 1025],
        length: 0,
        m: 0,
        w: 0,
        c: 0,
    }
}

// Takes the next bytes of the input: count of them, and 1,024 at most. What they add to the output stands at the start of out, and the rest of it stays.
// An answer has at most 12 bytes for each byte of its line, the line feed counted: hence the room of 12 times 1,025 + 1,024.
pub fn take(state: State, input: &[u8; 1024], count: usize, out: &mut [u8; 24588]) -> Step
    ensures state { point_of result.state ≡ kept_point (after_bytes (point_of state) (take count input.now)) }
    ensures size { result.length ≡ length (adds (point_of state) (take count input.now)) }
    ensures output { out.new ≡ written out.old 0 (adds (point_of state) (take count input.now)) }
    ensures fits { result.state.length ≤ 1025 }
{
    let mut line = state.line;
    let n = count.min(1024);
    let first = Place {
        length: state.length.min(1025),
        used: 0,
        m: state.m,
        w: state.w,
        c: state.c,
    };
    let last = take_all(&mut line, &input[..n], first, out);
    let after_bytes = State {
        line,
        length: last.length,
        m: last.m,
        w: last.w,
        c: last.c,
    };
    Step {
        state: after_bytes,
        length: last.used,
    }
}

// The end of the input: a line that isn't empty is answered. Gives how many bytes this adds to the output; they stand at the start of out.
pub fn finish(state: State, out: &mut [u8; 24588]) -> usize
    ensures size { result ≡ length (closing (point_of state)) }
    ensures output { out.new ≡ written out.old 0 (closing (point_of state)) }
{
    let length = state.length.min(1025);
    if length == 0 {
        return 0;
    }
    let line = state.line;
    let at = Place {
        length,
        used: 0,
        m: state.m,
        w: state.w,
        c: state.c,
    };
    let end = end_line(&line, at, out);
    end.used
}
