// Reading and writing for the programs, with waits and interruptions, and their first argument.
// What is read from a reader, and written to a writer, is kept account of where their bytes are known, as over memory; of a file's or a pipe's no contract can speak.

#![tactic(auto)]

ghost use Rattle.std.specs.Prelude.{◌≡◌, ℕ, ◌≤◌, ◌<◌, true, false, length, take, IfOk, IfErr, OnOk, OnErr, MatchResult};
ghost use Rattle.std.specs.Io.{ReadsAtMost, WritesAtMost};
ghost use Rattle.std.specs.Io.KnownBytes.{Keeps, Appends, Consumes, IsAtEnd, ReadConsumes, WriteAppends};

use std::env::FillError;
use std::fmt::Write as _;
use std::io::{ErrorKind, Read, Write};
use std::rt::{Clock, Env};
use std::time::Duration;
use std::{fmt, io, thread};

// Where a program writes, and the clock by which it waits.
#[derive(Drop)]
pub struct Outputs<O, E, C> {
    pub output: O,
    pub errors: E,
    pub clock: C,
}

// Waits for a millisecond.
fn nap(clock: &impl Clock) {
    thread::sleep(clock, Duration::from_millis(1));
}

// Whether the call that gave this is to be made again: a signal stopped it, or the system can't do it now.
fn is_again(clock: &impl Clock, got: &io::Result<usize>) -> bool
    ensures { IfOk got.now (λ _. result ≡ false) }
{
    match got {
        Ok(_) => false,
        Err(e) => match e.kind() {
            ErrorKind::WouldBlock => {
                nap(clock);
                true
            }
            ErrorKind::Interrupted => true,
            _ => false,
        },
    }
}

// Reads the bytes available, waiting if there are none. Returns how many were read, 0 at end of input.
pub fn read_some<I: Read>(input: &mut I, clock: &impl Clock, buffer: &mut [u8]) -> io::Result<usize>
    ensures bound { ReadsAtMost result buffer.new }
    ensures same_length { length buffer.new ≡ length buffer.old }
    ensures bytes { ReadConsumes (I.remaining input.old) (I.remaining input.new) result buffer.new }
{
    for _ in 0..u64::MAX {
        let got = input.read(buffer);
        if !is_again(clock, &got) {
            return got;
        }
    }
    input.read(buffer)
}

// Writes some of the bytes, and waits where there is no room for any. Returns how many were written.
pub fn write_some<O: Write>(output: &mut O, clock: &impl Clock, bytes: &[u8]) -> io::Result<usize>
    ensures bound { WritesAtMost result bytes.now }
    ensures bytes { WriteAppends (O.contents output.old) (O.contents output.new) result bytes.now }
{
    for _ in 0..u64::MAX {
        let got = output.write(bytes);
        if !is_again(clock, &got) {
            return got;
        }
    }
    output.write(bytes)
}

// Writes all of the bytes; where that fails, some of them, from the first on.
fn put_all<O: Write>(output: &mut O, clock: &impl Clock, bytes: &[u8]) -> io::Result<()>
    ensures all { OnOk result (Appends (O.contents output.old) (O.contents output.new) bytes.now) }
    ensures part { (k : ℕ) × Appends (O.contents output.old) (O.contents output.new) (take k bytes.now) }
{
    let mut done: usize = 0;
    // A while loop: each write takes as many bytes as it will, so the step is not fixed.
    while done < bytes.len() {
        let put = write_some(output, clock, &bytes[done..])?;
        if put == 0 {
            return Err(io::Error::from(ErrorKind::WriteZero));
        }
        done += put;
    }
    Ok(())
}

// An error's text, in fixed memory, since it is also wanted where memory has run out.
#[derive(Drop)]
struct Text {
    bytes: [u8; 256],
    length: usize,
    ghost within: { length ≤ 256 },
}

impl fmt::Write for Text {
    fn write_str(&mut self, s: &str) -> fmt::Result {
        for byte in s.as_bytes() {
            if self.length < 256 {
                self.bytes[self.length] = *byte;
                self.length += 1;
            }
        }
        Ok(())
    }
}

// An error's text as the system has it: its number is left out.
fn without_number(text: &[u8]) -> &[u8] {
    for i in 0..text.len() {
        if text[i..].starts_with(b" (os error ") {
            return &text[..i];
        }
    }
    text
}

// Writes a line to standard error: what failed, as the caller names it, a colon and the error's text.
pub fn fail<E: Write>(errors: &mut E, words: &[u8], error: io::Error) {
    let mut text = Text {
        bytes: [0u8; 256],
        length: 0,
    };
    let _ = write!(text, "{error}");
    let _ = errors.write_all(words);
    let _ = errors.write_all(b": ");
    let _ = errors.write_all(without_number(&text.bytes[..text.length]));
    let _ = errors.write_all(b"\n");
}

// Writes all of the bytes to standard output, or says on standard error why not, after these words.
pub fn write_out<O: Write, E: Write, C: Clock>(
    to: &mut Outputs<O, E, C>,
    bytes: &[u8],
    failed: &[u8],
) -> bool
    ensures all { result ≡ true → Appends (O.contents to.old.output) (O.contents to.new.output) bytes.now }
    ensures part { (k : ℕ) × Appends (O.contents to.old.output) (O.contents to.new.output) (take k bytes.now) }
{
    match put_all(&mut to.output, &to.clock, bytes) {
        Ok(()) => true,
        Err(e) => {
            fail(&mut to.errors, failed, e);
            false
        }
    }
}

// What a program is asked for by the first word after its name, or that there is none.
#[derive(Clone, Copy)]
pub enum Request {
    Run,
    Help,
    Version,
    Numbers,
    Unknown,
}

// What a word asks a program for.
fn request_of(word: &[u8]) -> Request {
    if text::is_same(word, b"--help") {
        return Request::Help;
    }
    if text::is_same(word, b"--version") {
        return Request::Version;
    }
    if text::is_same(word, b"--numbers") {
        return Request::Numbers;
    }
    Request::Unknown
}

// What the program is asked for.
pub fn asked(env: &impl Env) -> Request {
    let mut word = [0u8; 16];
    match env.arg(1, &mut word) {
        Ok(n) => request_of(&word[..n]),
        Err(FillError::NotPresent) => Request::Run,
        Err(FillError::TooLong) => Request::Unknown,
    }
}

// An entry of a program's list of numbers on standard output: the number, what it means in this program and what to do about it. If that cannot be written, standard error says so after these words.
pub fn entry_as<O: Write, E: Write, C: Clock>(
    to: &mut Outputs<O, E, C>,
    number: u8,
    meaning: &[u8],
    advice: &[u8],
    failed: &[u8],
) -> bool {
    let tens = number / 10 % 10;
    let first = if tens == 0 { b' ' } else { b'0' + tens };
    let digits = [first, b'0' + number % 10, b' ', b' '];
    write_out(to, &digits, failed)
        && write_out(to, meaning, failed)
        && write_out(to, b"\n    ", failed)
        && write_out(to, advice, failed)
        && write_out(to, b"\n", failed)
}

// An entry of a program's list of numbers: the number, what it means in the whole library and what to do about it.
pub fn entry<O: Write, E: Write, C: Clock>(
    to: &mut Outputs<O, E, C>,
    number: u8,
    advice: &[u8],
    failed: &[u8],
) -> bool {
    let mut text = [0u8; 64];
    let length = release::number_text(number as usize, &mut text);
    entry_as(to, number, &text[..length], advice, failed)
}

// The entries of 1 to 4, the refusals of a shape line.
pub fn shape_entries<O: Write, E: Write, C: Clock>(
    to: &mut Outputs<O, E, C>,
    failed: &[u8],
) -> bool {
    entry(to, 1, b"Give m from 1 to 15 in the shape line.", failed)
        && entry(to, 2, b"Give c from 1 to 4 in the shape line.", failed)
        && entry(to, 3, b"Give w from c+2 to 16 in the shape line.", failed)
        && entry(
            to,
            4,
            b"Give a larger m or w in the shape line: m*(w-c) must be at least 3.",
            failed,
        )
}
