// Lookup, Put, Remove and Compact of named shapes as C calls them.

#![tactic(auto)]

ghost use Rattle.std.specs.Prelude.{◌≡◌};
ghost use Rattle.catalogue_calls.specs.Calls.{lookup_refusal, lookup_figures, looked_number, looked_figures, put_refusal, put_figures, put_buffer};
ghost use Rattle.catalogue_calls.specs.Calls.{remove_refusal, remove_figures, remove_buffer, changed_number, changed_figures};
ghost use Rattle.catalogue_compact.specs.Compaction.{compact_refusal, compact_figures, compact_buffer, compacted_number, compacted_figures};
ghost use Rattle.c_catalogue.specs.Answers.{lookup_answer, change_answer, compact_answer};

use answers::Refusal;
use catalogue_calls::{Changed, Stored};

// What Lookup gives to C: the number, 0 for done, and the shape and the revision; 0 on a refusal.
#[repr(C)]
#[derive(Clone, Copy)]
pub struct LookupAnswer {
    pub number: u8,
    pub m: u8,
    pub w: u8,
    pub c: u8,
    pub revision: u16,
}

// What Put and Remove give to C: the number, 0 for done, the revision and the new text's length; 0 on a refusal.
#[repr(C)]
#[derive(Clone, Copy)]
pub struct ChangeAnswer {
    pub number: u8,
    pub revision: u16,
    pub size: usize,
}

// What Compact gives to C: the number, 0 for done, and the text's length; 0 on a refusal.
#[repr(C)]
#[derive(Clone, Copy)]
pub struct CompactAnswer {
    pub number: u8,
    pub size: usize,
}

// The number and the figures of what Lookup answers.
fn lookup_answer(looked: Result<Stored, Refusal>) -> LookupAnswer
    ensures { result ≡ lookup_answer (looked_number looked) (looked_figures looked) }
{
    match looked {
        Ok(stored) => LookupAnswer {
            number: 0,
            m: stored.m,
            w: stored.w,
            c: stored.c,
            revision: stored.revision,
        },
        Err(refusal) => LookupAnswer {
            number: refusal.number(),
            m: 0,
            w: 0,
            c: 0,
            revision: 0,
        },
    }
}

// The number and the figures of what Put and Remove answer.
fn change_answer(changed: Result<Changed, Refusal>) -> ChangeAnswer
    ensures { result ≡ change_answer (changed_number changed) (changed_figures changed) }
{
    match changed {
        Ok(done) => ChangeAnswer {
            number: 0,
            revision: done.revision,
            size: done.size,
        },
        Err(refusal) => ChangeAnswer {
            number: refusal.number(),
            revision: 0,
            size: 0,
        },
    }
}

// The number and the length of what Compact answers.
fn compact_answer(compacted: Result<usize, Refusal>) -> CompactAnswer
    ensures { result ≡ compact_answer (compacted_number compacted) (compacted_figures compacted) }
{
    match compacted {
        Ok(size) => CompactAnswer { number: 0, size },
        Err(refusal) => CompactAnswer {
            number: refusal.number(),
            size: 0,
        },
    }
}

#[unsafe(no_mangle)]
pub extern "C" fn axlebloom_lookup(text: &[u8], size: usize, name: &[u8]) -> LookupAnswer
    ensures { result ≡ lookup_answer (lookup_refusal text.now size name.now) (lookup_figures text.now size name.now) }
{
    lookup_answer(catalogue_calls::lookup(text, size, name))
}

#[unsafe(no_mangle)]
pub extern "C" fn axlebloom_put(
    m: usize,
    w: usize,
    c: usize,
    name: &[u8],
    expected: usize,
    text: &mut [u8],
    size: usize,
) -> ChangeAnswer
    ensures answer { result ≡ change_answer (put_refusal m w c name.now expected text.old size) (put_figures m w c name.now expected text.old size) }
    ensures text { text.new ≡ put_buffer m w c name.now expected text.old size }
{
    change_answer(catalogue_calls::put(m, w, c, name, expected, text, size))
}

#[unsafe(no_mangle)]
pub extern "C" fn axlebloom_remove(
    name: &[u8],
    expected: usize,
    text: &mut [u8],
    size: usize,
) -> ChangeAnswer
    ensures answer { result ≡ change_answer (remove_refusal name.now expected text.old size) (remove_figures name.now expected text.old size) }
    ensures text { text.new ≡ remove_buffer name.now expected text.old size }
{
    change_answer(catalogue_calls::remove(name, expected, text, size))
}

#[unsafe(no_mangle)]
pub extern "C" fn axlebloom_compact(text: &mut [u8], size: usize) -> CompactAnswer
    ensures answer { result ≡ compact_answer (compact_refusal text.old size) (compact_figures text.old size) }
    ensures text { text.new ≡ compact_buffer text.old size }
{
    compact_answer(catalogue_compact::compact(text, size))
}
