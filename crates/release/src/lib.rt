// What the library says about itself: its version, the layout of its records, and its numbers in English.

#![tactic(auto)]

ghost use Rattle.std.specs.Prelude.{◌≡◌, ◌-◌, ◌≤◌, length, take, drop, get_or};
ghost use Rattle.release.specs.Version.{library_version, desk_layout, gather_layout};
ghost use Rattle.release.specs.Texts.{number_text, lent_text};
ghost use Rattle.release.specs.Joined.{joined_texts, starts, row_of};

// The texts of 0 to 31, and that of any other number, end to end.
const ALL: [u8; 1247] = *b"\
    done\
    the number of groups is out of range\
    the number of local checks is out of range\
    the group width is out of range\
    the shape has no room for data\
    the number of bytes, symbols or marks does not match the shape\
    a mark or a gather's finished byte is neither 0 nor 1\
    there is no such group\
    too many places are lost\
    the present bytes fit no codeword\
    the desk has issued all its handles\
    the desk is full: eight jobs are open\
    no open job has this handle\
    the job has served as many words as it can count\
    a line is unreadable, missing or out of order\
    no good shape has been given yet\
    the catalogue text is malformed or its length is wrong\
    not a valid name: use 1 to 16 of a to z, 0 to 9 and hyphen\
    the catalogue has no such name, or it is gone\
    the name's revision is not the one you expected\
    no revision is left: 65535 is the last\
    the new catalogue text would exceed its buffer or 4096 bytes\
    the gather is finished\
    the stretch ends beyond the word\
    a place in the stretch has already arrived\
    the word has no such place\
    the shape has more than 4096 places\
    the blocks' total length is wrong, zero or above 65536\
    outside the profile; the word may still be recoverable\
    shapes with four local checks are retired\
    there is no such byte of data\
    the desk is not sound\
    not a number of this library";

// Where each of them starts, and where the last one ends.
const STARTS: [usize; 34] = [
    0, 4, 40, 82, 113, 143, 205, 258, 280, 304, 337, 372, 409, 436, 484, 529, 561, 615, 673, 718,
    765, 803, 863, 885, 917, 959, 985, 1020, 1074, 1128, 1169, 1198, 1219, 1247,
];

// The version, as 10,000 times the first figure, 100 times the second, and the third.
pub fn version() -> u32
    ensures { result ≡ library_version }
{
    10101
}

// The layout of a desk.
pub fn desk_layout() -> u32
    ensures { result ≡ desk_layout }
{
    2
}

// The layout of a gather.
pub fn gather_layout() -> u32
    ensures { result ≡ gather_layout }
{
    1
}

// The row of a number in these tables.
fn row(number: usize) -> usize
    ensures { result ≡ row_of number }
{
    if number < 32 { number } else { 32 }
}

// Where a row starts.
fn start(i: usize) -> usize
    ensures { result ≡ get_or starts i 0 }
{
    if i < 34 { STARTS[i] } else { 0 }
}

// Puts a text at the start of a buffer, cut where it has no room, and a zero byte after it.
fn lend(text: &[u8], out: &mut [u8])
    ensures { out.new ≡ lent_text text.now out.old }
{
    if out.len() == 0 {
        return;
    }
    let n = buffers::smaller(text.len(), out.len() - 1);
    let end = text::put_text(out, 0, &text[..n]);
    out[end] = 0;
}

// Puts a part of the texts at the start of a buffer, cut where it has no room, and a zero byte after it.
fn lend_part(a: usize, e: usize, out: &mut [u8])
    requires { (a ≤ e) × (e ≤ 1247) }
    ensures { out.new ≡ lent_text (take (e - a) (drop a joined_texts)) out.old }
{
    lend(&ALL[a..e], out);
}

// Puts the text of a number at the start of a buffer, cut where it has no room, with a zero byte after it, and gives the length of the whole text.
pub fn number_text(number: usize, out: &mut [u8]) -> usize
    ensures size { result ≡ length (number_text number) }
    ensures out { out.new ≡ lent_text (number_text number) out.old }
{
    let i = row(number);
    let a = start(i);
    let e = start(i + 1);
    lend_part(a, e, out);
    e - a
}
