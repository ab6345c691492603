// The program: blocks from standard input, rebuilt, to standard output. `block_input` defines what is written; this file only reads and writes.

#![tactic(auto)]

ghost use Rattle.std.specs.Prelude.{◌≡◌, ◌⊎◌, ℕ, List, ◌++◌, ◌≤◌, ◌<◌, true, length, take, IfSome, Err};
ghost use Rattle.std.specs.Io.KnownBytes.{Appends, Consumes, IsAtEnd};
ghost use Rattle.text_lines.specs.Holds.{HoldsLine};
ghost use Rattle.block_rebuild.specs.Rebuild.{rebuilt_word};
ghost use Rattle.block_input.specs.Output.{output_of, rebuilt_output};
ghost use Rattle.rebuild.specs.Runs.{WritesFront, Refuses, RefusesFront};

use block_input::InputFailure;
use block_rebuild::Failure;
use program_io::{Outputs, Request};
use std::io::{Read, Write};
use std::rt::Clock;
use text_lines::Line;

// Writes all of the bytes to standard output, or says on standard error why not.
fn put<O: Write, E: Write, C: Clock>(to: &mut Outputs<O, E, C>, bytes: &[u8]) -> bool
    ensures all { result ≡ true → Appends (O.contents to.old.output) (O.contents to.new.output) bytes.now }
    ensures front { WritesFront (O.contents to.old.output) (O.contents to.new.output) bytes.now }
{
    program_io::write_out(to, bytes, b"rebuild: standard output")
}

// Writes some of the bytes to standard error.
fn tell<O: Write, E: Write, C: Clock>(to: &mut Outputs<O, E, C>, bytes: &[u8])
    ensures { to.new.output ≡ to.old.output }
{
    let _ = program_io::write_some(&mut to.errors, &to.clock, bytes);
}

// Writes the first bytes of some to standard error.
fn say_error<O: Write, E: Write, C: Clock>(to: &mut Outputs<O, E, C>, bytes: &[u8], size: usize)
    ensures { to.new.output ≡ to.old.output }
{
    if size <= bytes.len() {
        tell(to, &bytes[..size]);
    }
}

// Writes the first bytes of some to standard output and, since rebuilt bytes could look like a refusal, to standard error too.
fn say<O: Write, E: Write, C: Clock>(to: &mut Outputs<O, E, C>, bytes: &[u8], size: usize) -> bool
    ensures all { result ≡ true → Appends (O.contents to.old.output) (O.contents to.new.output) (take size bytes.now) }
    ensures front { WritesFront (O.contents to.old.output) (O.contents to.new.output) (take size bytes.now) }
{
    if bytes.len() < size {
        return false;
    }
    let written = put(to, &bytes[..size]);
    say_error(to, bytes, size);
    written
}

// Writes to standard error which of the three lines cannot be read.
fn say_unreadable<O: Write, E: Write, C: Clock>(to: &mut Outputs<O, E, C>, line: u8)
    ensures { to.new.output ≡ to.old.output }
{
    if line == 1 {
        tell(to, b"line 1 cannot be read as a shape line");
    } else if line == 2 {
        tell(to, b"line 2 cannot be read as a marks line");
    } else {
        tell(to, b"line 3 cannot be read as a length line");
    }
}

// Writes to standard error what a number means in the whole library.
fn say_text<O: Write, E: Write, C: Clock>(to: &mut Outputs<O, E, C>, number: u8)
    ensures { to.new.output ≡ to.old.output }
{
    let mut text = [0u8; 64];
    let length = release::number_text(number as usize, &mut text);
    tell(to, &text[..length]);
}

// Writes to standard error the meaning of a number here; a 14 is about this line.
fn say_meaning<O: Write, E: Write, C: Clock>(to: &mut Outputs<O, E, C>, number: u8, line: u8)
    ensures { to.new.output ≡ to.old.output }
{
    if number == 5 {
        tell(to, b"there is not one mark for each block");
    } else if number == 6 {
        tell(to, b"a mark is neither 0 nor 1");
    } else if number == 14 {
        say_unreadable(to, line);
    } else {
        say_text(to, number);
    }
}

// Writes to standard error what the number of a refusal means here; a 14 is about this line.
fn explain<O: Write, E: Write, C: Clock>(to: &mut Outputs<O, E, C>, number: u8, line: u8)
    ensures { to.new.output ≡ to.old.output }
{
    tell(to, b"rebuild: ");
    say_meaning(to, number, line);
    tell(to, b"\n");
}

// Writes the line of a refusal, and what its number means; a 14 is about this line.
fn refuse<O: Write, E: Write, C: Clock>(
    to: &mut Outputs<O, E, C>,
    answer: Line,
    number: u8,
    line: u8,
) -> bool
    ensures all { result ≡ true → (text : List ℕ) → HoldsLine answer text → Appends (O.contents to.old.output) (O.contents to.new.output) text }
    ensures front { (text : List ℕ) → HoldsLine answer text → WritesFront (O.contents to.old.output) (O.contents to.new.output) text }
{
    let bytes = answer.bytes;
    let written = say(to, &bytes, answer.length);
    explain(to, number, line);
    written
}

// Writes the line of a rebuild that is not done, and what its number means.
fn refuse_blocks<O: Write, E: Write, C: Clock>(to: &mut Outputs<O, E, C>, failure: Failure) -> bool
    requires { rebuilt_word (Err failure) < 4294967296 }
    ensures all { result ≡ true → (held : List ℕ) → Appends (O.contents to.old.output) (O.contents to.new.output) (rebuilt_output (Err failure) held) }
    ensures front { (held : List ℕ) → WritesFront (O.contents to.old.output) (O.contents to.new.output) (rebuilt_output (Err failure) held) }
{
    match failure {
        Failure::Contradictory { word, group } => refuse(
            to,
            text_lines::contradictory_word(word, group),
            9,
            0,
        ),
        Failure::Refused(e) => {
            let number = e.number();
            refuse(to, text_lines::refused(number), number, 0)
        }
    }
}

// Writes what a whole input gives, and tells whether all of it was written.
fn finish<O: Write, E: Write, C: Clock>(to: &mut Outputs<O, E, C>, input: &mut [u8]) -> bool
    ensures all { result ≡ true → Appends (O.contents to.old.output) (O.contents to.new.output) (output_of input.old) }
    ensures front { WritesFront (O.contents to.old.output) (O.contents to.new.output) (output_of input.old) }
{
    match block_input::answer(input) {
        Ok(start) => {
            if start <= input.len() {
                put(to, &input[start..])
            } else {
                false
            }
        }
        Err(InputFailure::Line(r)) => {
            let line = block_input::line_refused(input);
            refuse(to, text_lines::refused(r), r, line)
        }
        Err(InputFailure::Blocks(failure)) => refuse_blocks(to, failure),
    }
}

// How many bytes of the input have come, whether more may come, whether they are the whole input, and whether a refusal was written.
#[derive(Clone, Copy)]
struct Run {
    used: usize,
    more: bool,
    whole: bool,
    told: bool,
}

// What bytes that have come settle. A refusal that no more input changes is written at once, and ends the run. A full buffer counts as the whole input: what comes after it changes nothing.
fn settle<O: Write, E: Write, C: Clock>(to: &mut Outputs<O, E, C>, input: &[u8], used: usize) -> Run
    requires { used ≤ length input.now }
    ensures used { result.used ≡ used }
    ensures more { result.more ≡ true → to.new.output ≡ to.old.output }
    ensures whole { result.whole ≡ true → (to.new.output ≡ to.old.output) × (used ≡ length input.now) }
    ensures told { result.told ≡ true → Refuses (O.contents to.old.output) (O.contents to.new.output) (take used input.now) }
    ensures front { (to.new.output ≡ to.old.output) ⊎ RefusesFront (O.contents to.old.output) (O.contents to.new.output) (take used input.now) }
{
    let r = block_input::refusal_so_far(&input[..used]);
    if r != 0 {
        let line = block_input::line_refused(&input[..used]);
        let told = refuse(to, text_lines::refused(r), r, line);
        return Run {
            used,
            more: false,
            whole: false,
            told,
        };
    }
    Run {
        used,
        more: used < input.len(),
        whole: used == input.len(),
        told: false,
    }
}

// Reads once, after the bytes that have come.
fn turn<I: Read, O: Write, E: Write, C: Clock>(
    reader: &mut I,
    to: &mut Outputs<O, E, C>,
    input: &mut [u8],
    used: usize,
) -> Run
    requires { used ≤ length input.old }
    ensures within { result.used ≤ length input.old }
    ensures same_length { length input.new ≡ length input.old }
    ensures read { (part : List ℕ) × Consumes (I.remaining reader.old) (I.remaining reader.new) part × (take result.used input.new ≡ take used input.old ++ part) }
    ensures more { result.more ≡ true → to.new.output ≡ to.old.output }
    ensures whole { result.whole ≡ true → (to.new.output ≡ to.old.output) × (IsAtEnd (I.remaining reader.new) ⊎ (result.used ≡ length input.old)) }
    ensures told { result.told ≡ true → Refuses (O.contents to.old.output) (O.contents to.new.output) (take result.used input.new) }
    ensures front { (to.new.output ≡ to.old.output) ⊎ RefusesFront (O.contents to.old.output) (O.contents to.new.output) (take result.used input.new) }
{
    match program_io::read_some(reader, &to.clock, &mut input[used..]) {
        Err(e) => {
            program_io::fail(&mut to.errors, b"rebuild: standard input", e);
            Run {
                used,
                more: false,
                whole: false,
                told: false,
            }
        }
        Ok(0) => Run {
            used,
            more: false,
            whole: true,
            told: false,
        },
        Ok(count) => settle(to, input, used + count),
    }
}

// Rebuilds the input's blocks or refuses them, and tells whether all of the output was written.
// Every turn that goes on has read a byte, so there are no more turns than bytes in the buffer, which holds three lines of 1,024 bytes, 65,536 bytes of blocks and one byte more.
fn run_all<I: Read, O: Write, E: Write, C: Clock>(reader: &mut I, to: &mut Outputs<O, E, C>) -> bool
    ensures whole { result ≡ true → IfSome (I.remaining reader.old) (λ xs. Appends (O.contents to.old.output) (O.contents to.new.output) (output_of xs)) }
    ensures front { IfSome (I.remaining reader.old) (λ xs. WritesFront (O.contents to.old.output) (O.contents to.new.output) (output_of xs)) }
{
    let mut input = [0u8; 68612];
    let mut run = Run {
        used: 0,
        more: true,
        whole: false,
        told: false,
    };
    for _ in 0..68612 {
        if !run.more {
            break;
        }
        run = turn(reader, to, &mut input, run.used);
    }
    let used = run.used;
    if run.whole {
        return finish(to, &mut input[..used]);
    }
    run.told
}

// Writes what --help asks for.
fn write_help<O: Write, E: Write, C: Clock>(to: &mut Outputs<O, E, C>) -> bool {
    put(
        to,
        b"\
usage: rebuild < INPUT > OUTPUT\n\
\n\
Block rebuild. The input is three lines, with a tab before each number, and then the\n\
blocks as raw bytes, end to end:\n\
\n\
\x20 shape m w c   m groups of w blocks, c checks in each\n\
\x20 marks ...     one for each of the m*w blocks: 1 if it is lost, else 0\n\
\x20 length L      the bytes of a block; m*w*L is at most 65536\n\
\n\
The output is all the blocks, with the lost ones rebuilt, and nothing else. If they\n\
cannot be rebuilt, it is one line: refused and a number (for 9, also the word and the\n\
group). That line is repeated on standard error, followed by what the number means.\n\
Standard error is empty if the blocks were rebuilt.\n\
\n\
\x20 --numbers     print what each number means and what to do about it\n\
\x20 --help        print this help\n\
\x20 --version     print the version\n",
    )
}

// An entry of the list of numbers.
fn entry<O: Write, E: Write, C: Clock>(
    to: &mut Outputs<O, E, C>,
    number: u8,
    advice: &[u8],
) -> bool {
    program_io::entry(to, number, advice, b"rebuild: standard output")
}

// An entry of the list of numbers, with what the number means in this program.
fn entry_as<O: Write, E: Write, C: Clock>(
    to: &mut Outputs<O, E, C>,
    number: u8,
    meaning: &[u8],
    advice: &[u8],
) -> bool {
    program_io::entry_as(to, number, meaning, advice, b"rebuild: standard output")
}

// The entries of the refusals of the marks and of losses.
fn loss_entries<O: Write, E: Write, C: Clock>(to: &mut Outputs<O, E, C>) -> bool {
    entry_as(
        to,
        5,
        b"there is not one mark for each block",
        b"Give m*w marks in the marks line.",
    ) && entry_as(
        to,
        6,
        b"a mark is neither 0 nor 1",
        b"Give 1 for a lost block and 0 for one that is present.",
    ) && entry(
        to,
        8,
        b"Bring back at least one lost block and run it again. One may not be enough.",
    ) && entry(
        to,
        9,
        b"\
At least one block that is marked 0 is wrong (or the marks or the shape are);\n\
\x20   bringing back lost blocks is no cure. After 9 come a word and a group, counted\n\
\x20   from 0. The word is the lowest byte of the blocks at which they do not fit.\n\
\x20   Group below m: at least one of its present blocks is wrong there; there may be\n\
\x20   others. Group m: none can be named; suspect first the groups that have lost c or\n\
\x20   more. Mark the block that you suspect with 1 and run it again. Blocks that come\n\
\x20   then do not prove that you were right: compare them with a checksum or a copy.",
    )
}

// Writes what --numbers asks for.
fn write_numbers<O: Write, E: Write, C: Clock>(to: &mut Outputs<O, E, C>) -> bool {
    put(
        to,
        b"\
If the blocks cannot be rebuilt, rebuild writes no block, but one line: refused and\n\
one of these numbers.\n\
\n",
    ) && program_io::shape_entries(to, b"rebuild: standard output")
        && loss_entries(to)
        && entry(
            to,
            14,
            b"\
The first three lines are shape, marks and length, each ended by a line feed alone.\n\
\x20   Standard error says which of them cannot be read.",
        )
        && entry(
            to,
            27,
            b"\
After the length line come the m*w blocks of L bytes each and nothing else; L is at\n\
\x20   least 1, and m*w*L is at most 65536.",
        )
}

fn main(rt: HostRuntime) {
    let mut to = Outputs {
        output: rt.stdout(),
        errors: rt.stderr(),
        clock: rt,
    };
    match program_io::asked(&rt) {
        Request::Run => {
            run_all(&mut rt.stdin(), &mut to);
        }
        Request::Help => {
            write_help(&mut to);
        }
        Request::Version => {
            put(&mut to, b"rebuild 1.1.1\n");
        }
        Request::Numbers => {
            write_numbers(&mut to);
        }
        Request::Unknown => {
            tell(&mut to, b"rebuild: unknown argument: try --help\n");
        }
    }
}
