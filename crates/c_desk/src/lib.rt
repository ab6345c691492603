// The desk as C calls it: each call gives its number back, 0 for done, and Serve the group that a 9 carries.

#![tactic(auto)]

ghost use Rattle.std.specs.Prelude.{◌≡◌};
ghost use Rattle.desk_record.specs.Desks.{fresh_desk};
ghost use Rattle.desk_open.specs.Open.{open_of, opened_number};
ghost use Rattle.desk_close.specs.Read.{read_of, counted_number};
ghost use Rattle.desk_close.specs.Close.{close_of};
ghost use Rattle.desk_serve.specs.Serve.{serve_of};
ghost use Rattle.desk_change.specs.Change.{lose_of, find_of};
ghost use Rattle.c_desk.specs.DeskCalls.{OpensNumber, handle_or, ReadsNumber, served_or, ServesMended, ChangesNumber};

use answers::Refusal;
use c_answers::Mended;
use desk_record::Desk;

// The number of what Open answers, with the handle written where it is wanted.
fn opened_number(opened: Result<u64, Refusal>, handle: &mut u64) -> u8
    ensures { (result ≡ opened_number opened) × (handle.new ≡ handle_or opened handle.old) }
{
    match opened {
        Ok(h) => {
            *handle = h;
            0
        }
        Err(unopened) => unopened.number(),
    }
}

// The number of what Read answers, with the served count written where it is wanted.
fn counted_number(counted: Result<u32, Refusal>, served: &mut u32) -> u8
    ensures { (result ≡ counted_number counted) × (served.new ≡ served_or counted served.old) }
{
    match counted {
        Ok(n) => {
            *served = n;
            0
        }
        Err(unread) => unread.number(),
    }
}

#[unsafe(no_mangle)]
pub extern "C" fn axlebloom_fresh(desk: &mut Desk)
    ensures { desk.new ≡ fresh_desk }
{
    *desk = desk_record::fresh();
}

#[unsafe(no_mangle)]
pub extern "C" fn axlebloom_open(
    desk: &mut Desk,
    m: usize,
    w: usize,
    c: usize,
    marks: &[u8],
    handle: &mut u64,
) -> u8
    ensures { OpensNumber (open_of m w c marks.now desk.old) handle.old desk.new handle.new result }
{
    let d = *desk;
    let r = desk_open::open(d, m, w, c, marks);
    *desk = r.desk;
    opened_number(r.answer, handle)
}

#[unsafe(no_mangle)]
pub extern "C" fn axlebloom_serve(desk: &mut Desk, handle: u64, word: &mut [u8]) -> Mended
    ensures { ServesMended (serve_of handle word.old desk.old) word.new desk.new result }
{
    let d = *desk;
    let r = desk_serve::serve(d, handle, word);
    *desk = r.desk;
    c_answers::mended_of(r.answer)
}

#[unsafe(no_mangle)]
pub extern "C" fn axlebloom_read(desk: &Desk, handle: u64, served: &mut u32) -> u8
    ensures { ReadsNumber (read_of handle desk.now) served.old served.new result }
{
    let d = *desk;
    counted_number(desk_close::read(d, handle), served)
}

#[unsafe(no_mangle)]
pub extern "C" fn axlebloom_close(desk: &mut Desk, handle: u64) -> u8
    ensures { ChangesNumber (close_of handle desk.old) desk.new result }
{
    let d = *desk;
    let r = desk_close::close(d, handle);
    *desk = r.desk;
    c_answers::number(r.answer)
}

#[unsafe(no_mangle)]
pub extern "C" fn axlebloom_lose(desk: &mut Desk, handle: u64, place: usize) -> u8
    ensures { ChangesNumber (lose_of handle place desk.old) desk.new result }
{
    let d = *desk;
    let r = desk_change::lose(d, handle, place);
    *desk = r.desk;
    c_answers::number(r.answer)
}

#[unsafe(no_mangle)]
pub extern "C" fn axlebloom_find(desk: &mut Desk, handle: u64, place: usize) -> u8
    ensures { ChangesNumber (find_of handle place desk.old) desk.new result }
{
    let d = *desk;
    let r = desk_change::find(d, handle, place);
    *desk = r.desk;
    c_answers::number(r.answer)
}
