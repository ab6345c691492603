// Named shapes with revisions: Lookup, Put and Remove in a text at the start of a lent buffer.

#![tactic(auto)]

ghost use Rattle.std.specs.Prelude.{◌≡◌, true, cond, eqb, IfOk};
ghost use Rattle.code.specs.Refusals.{◌or_else◌};
ghost use Rattle.answers.specs.Answers.{refused_number};
ghost use Rattle.catalogue_text.specs.Names.{good_name};
ghost use Rattle.catalogue_scan.specs.Places.{FoundIn};
ghost use Rattle.catalogue_calls.specs.Calls.{text_refusal, name_refusal, lookup_refusal, lookup_figures, looked_number, looked_figures, change_refusal, ChangeLeaves};
ghost use Rattle.catalogue_calls.specs.Calls.{put_refusal, put_figures, put_buffer, remove_refusal, remove_figures, remove_buffer, changed_number, changed_figures};

use answers::Refusal;
use catalogue_scan::Found;
use shape::Bytes;

// The revision and the shape of a name.
#[derive(Clone, Copy, Debug, PartialEq, Eq)]
pub struct Stored {
    pub revision: u16,
    pub m: u8,
    pub w: u8,
    pub c: u8,
}

// The new text's length and the name's revision.
#[derive(Clone, Copy, Debug, PartialEq, Eq)]
pub struct Changed {
    pub size: usize,
    pub revision: u16,
}

// What is found for a good name in the text of so many bytes at the start of a buffer.
fn find(buffer: &[u8], size: usize, name: &[u8]) -> Result<Found, Refusal>
    ensures number { refused_number result ≡ (text_refusal buffer.now size or_else name_refusal name.now) }
    ensures found { IfOk result (λ found. FoundIn found buffer.now size name.now × (good_name name.now ≡ true)) }
{
    let found = catalogue_scan::scan_buffer(buffer, size, name).ok_or(Refusal::CatalogueText)?;
    if !catalogue_lines::is_name(name) {
        return Err(Refusal::Name);
    }
    Ok(found)
}

// The service Lookup.
pub fn lookup(buffer: &[u8], size: usize, name: &[u8]) -> Result<Stored, Refusal>
    ensures number { looked_number result ≡ lookup_refusal buffer.now size name.now }
    ensures figures { looked_figures result ≡ lookup_figures buffer.now size name.now }
{
    let place = find(buffer, size, name)?.place;
    if place.m == 0 {
        return Err(Refusal::NoSuchName);
    }
    Ok(Stored {
        revision: place.revision,
        m: place.m,
        w: place.w,
        c: place.c,
    })
}

// The revision that a put has to expect; a name that isn't there or is gone has m 0.
fn found_revision(m: u8, revision: u16) -> u16
    ensures { result ≡ cond (eqb m 0) 0 revision }
{
    if m == 0 { 0 } else { revision }
}

// The revision that the next one is counted from; a name that isn't there has revision 0.
fn last_revision(revision: u16, floor: u16) -> u16
    ensures { result ≡ cond (eqb revision 0) floor revision }
{
    if revision == 0 { floor } else { revision }
}

// Writes a name's line, with zeros for one that is gone, and the first line of version 2. The length is tested before anything is written.
fn change(
    found: Found,
    m: u8,
    w: u8,
    c: u8,
    name: &[u8],
    buffer: &mut [u8],
    size: usize,
) -> Result<Changed, Refusal>
    requires { FoundIn found buffer.old size name.now × (good_name name.now ≡ true) }
    ensures { ChangeLeaves (change_refusal buffer.old size name.now m w c) buffer.old size name.now m w c result buffer.new }
{
    let place = found.place;
    let last = last_revision(place.revision, found.floor);
    if last == 65535 {
        return Err(Refusal::RevisionEnd);
    }
    let row = catalogue_lines::entry_line(name, last + 1, m, w, c);
    let first = catalogue_lines::first_line(found.floor);
    let n = row.length;
    let h = first.length;
    let moved = place.from + n + (size - place.to);
    let end = moved + (h - found.first);
    if 4096 < end {
        return Err(Refusal::CatalogueFull);
    }
    if buffer.len() < end {
        return Err(Refusal::CatalogueFull);
    }
    let line = row.bytes;
    catalogue_lines::splice(buffer, size, place.from, place.to, &line[..n]);
    let head = first.bytes;
    catalogue_lines::splice(buffer, moved, 0, found.first, &head[..h]);
    Ok(Changed {
        size: end,
        revision: last + 1,
    })
}

// The service Put. An expected revision of any size is compared before anything is narrowed.
pub fn put(
    m: usize,
    w: usize,
    c: usize,
    name: &[u8],
    expected: usize,
    buffer: &mut [u8],
    size: usize,
) -> Result<Changed, Refusal>
    ensures number { changed_number result ≡ put_refusal m w c name.now expected buffer.old size }
    ensures figures { changed_figures result ≡ put_figures m w c name.now expected buffer.old size }
    ensures buffer { buffer.new ≡ put_buffer m w c name.now expected buffer.old size }
{
    shape::sale_refusal::<Bytes>(m, w, c)?;
    let found = find(buffer, size, name)?;
    let revision = found_revision(found.place.m, found.place.revision);
    if usize::from(revision) != expected {
        return Err(Refusal::Revision);
    }
    change(found, m as u8, w as u8, c as u8, name, buffer, size)
}

// The service Remove.
pub fn remove(
    name: &[u8],
    expected: usize,
    buffer: &mut [u8],
    size: usize,
) -> Result<Changed, Refusal>
    ensures number { changed_number result ≡ remove_refusal name.now expected buffer.old size }
    ensures figures { changed_figures result ≡ remove_figures name.now expected buffer.old size }
    ensures buffer { buffer.new ≡ remove_buffer name.now expected buffer.old size }
{
    let found = find(buffer, size, name)?;
    if found.place.m == 0 {
        return Err(Refusal::NoSuchName);
    }
    if usize::from(found.place.revision) != expected {
        return Err(Refusal::Revision);
    }
    change(found, 0, 0, 0, name, buffer, size)
}
