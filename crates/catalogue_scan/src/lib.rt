// A catalogue's text scanned for a name.

#![tactic(auto)]

ghost use Rattle.std.specs.Prelude.{◌≡◌, ◌≤◌, length};
ghost use Rattle.catalogue_scan.specs.Places.{place_at, place_next, right_line, larger_gone, read_head, scanned_from, scanned_of, scanned_in};

use catalogue_lines::Line;

// Where the line of a name stands, from its first byte to past its line feed, with its revision and its shape, zeros for one that is gone; for a
// name that isn't there the place where its line would stand, and zeros.
#[derive(Clone, Copy, Debug, PartialEq, Eq)]
pub struct Place {
    pub from: usize,
    pub to: usize,
    pub revision: u16,
    pub m: u8,
    pub w: u8,
    pub c: u8,
}

// A first line: its length with its line feed, its version and its floor.
#[derive(Clone, Copy, Debug, PartialEq, Eq)]
pub struct Head {
    pub size: usize,
    pub version: u8,
    pub floor: u16,
}

// Where the lines start, the floor, the largest revision of names that are gone, 0 if there are none, and the place of a name.
#[derive(Clone, Copy, Debug, PartialEq, Eq)]
pub struct Found {
    pub first: usize,
    pub floor: u16,
    pub top: u16,
    pub place: Place,
}

// A place with no line of the name.
fn place_at(at: usize) -> Place
    ensures { result ≡ place_at at }
{
    Place {
        from: at,
        to: at,
        revision: 0,
        m: 0,
        w: 0,
        c: 0,
    }
}

// The place after one more line, which stands from `at` to `next` and has the name `named`.
fn place_next(place: Place, line: Line, at: usize, next: usize, named: &[u8], name: &[u8]) -> Place
    ensures { result ≡ place_next name.now at next (record { name = named.now; revision = line.revision; m = line.m; w = line.w; c = line.c }) place }
{
    if catalogue_lines::is_before(named, name) {
        return place_at(next);
    }
    if text::is_same(named, name) {
        return Place {
            from: at,
            to: next,
            revision: line.revision,
            m: line.m,
            w: line.w,
            c: line.c,
        };
    }
    place
}

// What a line after the last name is read as, if it is right.
fn right_line(last: &[u8], line: &[u8]) -> Option<Line>
    ensures { result ≡ right_line last.now line.now }
{
    let read = catalogue_lines::read_line(line)?;
    if catalogue_lines::is_before(last, &line[..read.size]) {
        Some(read)
    } else {
        None
    }
}

// The larger of a number and the revision of a line with this m, if its name is gone.
fn larger_gone(top: u16, m: u8, revision: u16) -> u16
    ensures { result ≡ larger_gone top m revision }
{
    if m == 0 { top.max(revision) } else { top }
}

// What a line, without its line feed, is read as, if it is a first line.
fn read_head(line: &[u8]) -> Option<Head>
    ensures { result ≡ read_head line.now }
{
    if text::is_same(line, b"shapes\t1") {
        return Some(Head {
            size: 9,
            version: 1,
            floor: 0,
        });
    }
    let digits = line.strip_prefix(b"shapes\t2\t")?;
    let Ok(floor) = u16::try_from(text::number(digits, 65536)) else {
        return None;
    };
    Some(Head {
        size: line.len() + 1,
        version: 2,
        floor,
    })
}

// What is found in the lines of a text from a place on, if they are right.
fn scan_lines(text: &[u8], first: usize, floor: u16, name: &[u8]) -> Option<Found>
    requires { first ≤ length text.now }
    ensures { result ≡ scanned_from text.now first floor name.now }
{
    let mut place = place_at(first);
    let mut top: u16 = 0;
    let mut from: usize = 0;
    let mut to: usize = 0;
    let mut at = first;
    // A while loop: the step is a line's length, which the loop finds, and the places themselves are what is sought.
    while at < text.len() {
        let end = text::part_end(text, at, b'\n');
        let line = right_line(&text[from..to], &text[at..end])?;
        // Only here: before the line is read, this test goes into the loop over its bytes, and a lookup takes 1.2 times the instructions.
        if text.len() <= end {
            return None;
        }
        top = larger_gone(top, line.m, line.revision);
        from = at;
        to = at + line.size;
        at = end + 1;
        place = place_next(place, line, from, at, &text[from..to], name);
    }
    Some(Found {
        first,
        floor,
        top,
        place,
    })
}

// What is found in a text, if it is of the form.
pub fn scan(text: &[u8], name: &[u8]) -> Option<Found>
    ensures { result ≡ scanned_of text.now name.now }
{
    let end = text::part_end(text, 0, b'\n');
    if text.len() <= end {
        return None;
    }
    let head = read_head(&text[..end])?;
    let found = scan_lines(text, head.size, head.floor, name)?;
    if head.version == 1 && found.top != 0 {
        return None;
    }
    Some(found)
}

// What is found in the text of so many bytes at the start of a buffer, if it is of the form.
pub fn scan_buffer(buffer: &[u8], size: usize, name: &[u8]) -> Option<Found>
    ensures { result ≡ scanned_in buffer.now size name.now }
{
    if buffer.len() < size {
        return None;
    }
    if 4096 < size {
        return None;
    }
    scan(&buffer[..size], name)
}
