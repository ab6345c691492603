// Compaction: the lines of names that are gone leave the text, and the first line keeps the largest revision that left.

#![tactic(auto)]

ghost use Rattle.std.specs.Prelude.{◌≡◌, cond, ◌+◌, ◌-◌, ◌≤◌, max, eqb, length, take, drop};
ghost use Rattle.text.specs.Written.{written};
ghost use Rattle.catalogue_text.specs.Catalogue.{Catalogue, lines_of};
ghost use Rattle.catalogue_text.specs.Changes.{without_gone};
ghost use Rattle.catalogue_text.specs.Buffers.{catalogue_in};
ghost use Rattle.catalogue_scan.specs.Places.{FoundIn};
ghost use Rattle.catalogue_compact.specs.Compaction.{compact_refusal, compact_figures, compact_buffer, compacted_number, compacted_figures, LinesAt};

use answers::Refusal;

// Moves a line down to its new place, unless its name is gone, and gives the place after it.
fn keep_line(buffer: &mut [u8], at: usize, next: usize, to: usize, m: u8) -> usize
    requires { (to ≤ at) × (at ≤ next) × (next ≤ length buffer.old) }
    ensures place { result ≡ cond (eqb m 0) to (to + (next - at)) }
    ensures buffer { buffer.new ≡ cond (eqb m 0) buffer.old (written buffer.old to (take (next - at) (drop at buffer.old))) }
{
    if m == 0 {
        return to;
    }
    catalogue_lines::move_down(buffer, at, next, to);
    to + (next - at)
}

// Drops the gone lines of a text whose lines start at a place, and gives its length without them.
fn drop_gone(buffer: &mut [u8], size: usize, first: usize) -> usize
    requires { LinesAt buffer.old size first (catalogue_in buffer.old size).list }
    ensures end { result ≡ first + length (lines_of (without_gone (catalogue_in buffer.old size).list)) }
    ensures buffer { buffer.new ≡ written buffer.old first (lines_of (without_gone (catalogue_in buffer.old size).list)) }
{
    let mut at = first;
    let mut to = first;
    // A while loop: the step is a line's length, which the loop finds in the buffer that it changes.
    while at < size {
        let end = text::part_end(&buffer[..size], at, b'\n');
        let line = catalogue_lines::read_line(&buffer[at..end]).unwrap();
        to = keep_line(buffer, at, end + 1, to, line.m);
        at = end + 1;
    }
    to
}

// The service Compact. It answers the text's length.
pub fn compact(buffer: &mut [u8], size: usize) -> Result<usize, Refusal>
    ensures number { compacted_number result ≡ compact_refusal buffer.old size }
    ensures figures { compacted_figures result ≡ compact_figures buffer.old size }
    ensures buffer { buffer.new ≡ compact_buffer buffer.old size }
{
    let found = catalogue_scan::scan_buffer(buffer, size, b"").ok_or(Refusal::CatalogueText)?;
    if found.top == 0 {
        return Ok(size);
    }
    let end = drop_gone(buffer, size, found.first);
    let row = catalogue_lines::first_line(found.floor.max(found.top));
    let n = row.length;
    let line = row.bytes;
    catalogue_lines::splice(buffer, end, 0, found.first, &line[..n]);
    Ok(end - found.first + n)
}
