// The program: standard input answered on standard output. `text_stream` defines what is written; this file only reads and writes.

#![tactic(auto)]

ghost use Rattle.std.specs.Prelude.{◌≡◌, ℕ, true, take, IfSome};
ghost use Rattle.std.specs.Io.KnownBytes.{Appends};
ghost use Rattle.text_stream.specs.Session.{session_of};
ghost use Rattle.text_stream.specs.States.{point_of};
ghost use Rattle.text_stream.specs.Whole.{at_once};
ghost use Rattle.text_stream.specs.declared.State.{State};
ghost use Rattle.axlebloom.specs.declared.Run.TheVariants.{On, Over};
ghost use Rattle.axlebloom.specs.Runs.{GoesOn, Ends, WritesFront};

use program_io::{Outputs, Request};
use std::io::{Read, Write};
use std::rt::Clock;
use text_stream::State;

// Writes all of the bytes to standard output, or says on standard error why not.
fn put<O: Write, E: Write, C: Clock>(to: &mut Outputs<O, E, C>, bytes: &[u8]) -> bool
    ensures all { result ≡ true → Appends (O.contents to.old.output) (O.contents to.new.output) bytes.now }
    ensures part { (k : ℕ) × Appends (O.contents to.old.output) (O.contents to.new.output) (take k bytes.now) }
{
    program_io::write_out(to, bytes, b"axlebloom: standard output")
}

// The run goes on, with the state of the session; or it is over, and the bool tells whether it has come to the end of the input with all of its answers written.
#[derive(Clone, Copy)]
enum Run {
    On(State),
    Over(bool),
}

// Reads once, and writes what the bytes add to the output, or the end of the input does.
fn turn<I: Read, O: Write, E: Write, C: Clock>(
    input: &mut I,
    to: &mut Outputs<O, E, C>,
    state: State,
) -> Run
    ensures on { (next : State) → result ≡ On next → GoesOn (I.remaining input.old) (I.remaining input.new) (O.contents to.old.output) (O.contents to.new.output) (point_of state) (point_of next) }
    ensures whole { result ≡ Over true → Ends (I.remaining input.old) (O.contents to.old.output) (O.contents to.new.output) (point_of state) }
    ensures front { IfSome (I.remaining input.old) (λ xs. WritesFront (O.contents to.old.output) (O.contents to.new.output) (at_once (point_of state) xs)) }
{
    let mut bytes = [0u8; 1024];
    let mut out = [0u8; 24588];
    match program_io::read_some(input, &to.clock, &mut bytes) {
        Err(e) => {
            program_io::fail(&mut to.errors, b"axlebloom: standard input", e);
            Run::Over(false)
        }
        Ok(0) => {
            let size = text_stream::finish(state, &mut out);
            let whole = put(to, &out[..size]);
            Run::Over(whole)
        }
        Ok(count) => {
            let step = text_stream::take(state, &bytes, count, &mut out);
            let size = step.length;
            if put(to, &out[..size]) {
                Run::On(step.state)
            } else {
                Run::Over(false)
            }
        }
    }
}

// Answers the input to its end, and tells whether all of it was written; if not, standard error says why.
// A proved loop must terminate, but the input might not end, so the loop goes over a range that no run can exhaust.
fn run_all<I: Read, O: Write, E: Write, C: Clock>(input: &mut I, to: &mut Outputs<O, E, C>) -> bool
    ensures whole { result ≡ true → IfSome (I.remaining input.old) (λ xs. Appends (O.contents to.old.output) (O.contents to.new.output) (session_of xs)) }
    ensures front { IfSome (I.remaining input.old) (λ xs. WritesFront (O.contents to.old.output) (O.contents to.new.output) (session_of xs)) }
{
    let mut state = text_stream::start();
    for _ in 0..u64::MAX {
        match turn(input, to, state) {
            Run::On(next) => state = next,
            Run::Over(whole) => return whole,
        }
    }
    false
}

// Writes what --help asks for.
fn write_help<O: Write, E: Write, C: Clock>(to: &mut Outputs<O, E, C>) -> bool {
    put(
        to,
        b"\
usage: axlebloom < INPUT > OUTPUT\n\
\n\
Erasure repair over text lines. Each line is a name followed by numbers from 0 to\n\
255, with a tab before each number. Each input line gets exactly one output line.\n\
\n\
\x20 shape m w c   use this shape from now on: m groups of w bytes, c checks in each;\n\
\x20               answered by: ok n k, the bytes of a word and of the data in it\n\
\x20 data ...      k bytes to encode; answered by: word and n bytes\n\
\x20 word ...      n bytes to recover, - for a lost one; answered by: word and n bytes\n\
\n\
A line that cannot be carried out gets: refused and a number; after 9, also a group.\n\
\n\
\x20 --numbers     print what each number means and what to do about it\n\
\x20 --help        print this help\n\
\x20 --version     print the version\n",
    )
}

// An entry of the list of numbers.
fn entry<O: Write, E: Write, C: Clock>(
    to: &mut Outputs<O, E, C>,
    number: u8,
    advice: &[u8],
) -> bool {
    program_io::entry(to, number, advice, b"axlebloom: standard output")
}

// An entry of the list of numbers, with what the number means in this program.
fn entry_as<O: Write, E: Write, C: Clock>(
    to: &mut Outputs<O, E, C>,
    number: u8,
    meaning: &[u8],
    advice: &[u8],
) -> bool {
    program_io::entry_as(to, number, meaning, advice, b"axlebloom: standard output")
}

// The entries of the refusals of a data line or a word line.
fn word_entries<O: Write, E: Write, C: Clock>(to: &mut Outputs<O, E, C>) -> bool {
    entry_as(
        to,
        5,
        b"the number of bytes does not match the shape",
        b"Give k bytes after data and n after word; the answer to shape shows n, then k.",
    ) && entry(
        to,
        8,
        b"Bring back at least one lost place and send the word again. One may not be enough.",
    ) && entry(
        to,
        9,
        b"\
At least one byte of the word is wrong (or the lost places or the shape are);\n\
\x20   bringing back lost places is no cure. After 9 comes a group, counted from 0.\n\
\x20   Below m: a wrong byte is in that group; there may be others. m: no group can be\n\
\x20   named; suspect first the groups that have lost c or more. Give - for the byte\n\
\x20   that you suspect and send the word again. A word that comes then does not prove\n\
\x20   that you were right: compare its data with a checksum or with another copy.",
    )
}

// Writes what --numbers asks for.
fn write_numbers<O: Write, E: Write, C: Clock>(to: &mut Outputs<O, E, C>) -> bool {
    put(
        to,
        b"\
A line that cannot be carried out gets: refused and one of these numbers. It changes\n\
nothing: the shape before it stays in force.\n\
\n",
    ) && program_io::shape_entries(to, b"axlebloom: standard output")
        && word_entries(to)
        && entry_as(
            to,
            14,
            b"the line cannot be read",
            b"\
Check its name, its tabs and its numbers (0 to 255, no sign or leading zero). It has\n\
\x20   1 to 1024 bytes and ends with a line feed, without a carriage return.",
        )
        && entry(
            to,
            15,
            b"Send a shape line first, and see it answered by ok.",
        )
        && entry(
            to,
            29,
            b"Encode with c from 1 to 3. Words with c = 4 can still be recovered.",
        )
}

fn main(rt: HostRuntime) {
    let mut to = Outputs {
        output: rt.stdout(),
        errors: rt.stderr(),
        clock: rt,
    };
    match program_io::asked(&rt) {
        Request::Run => {
            run_all(&mut rt.stdin(), &mut to);
        }
        Request::Help => {
            write_help(&mut to);
        }
        Request::Version => {
            put(&mut to, b"axlebloom 1.1.1\n");
        }
        Request::Numbers => {
            write_numbers(&mut to);
        }
        Request::Unknown => {
            let _ = program_io::write_some(
                &mut to.errors,
                &rt,
                b"axlebloom: unknown argument: try --help\n",
            );
        }
    }
}
