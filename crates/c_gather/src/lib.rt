// The gather as C calls it: a lent record, numbers and lent bytes, each with its length, and the number given back, 0 for done; from Finish with
// the group that a 9 carries.

#![tactic(auto)]

ghost use Rattle.std.specs.Prelude.{◌≡◌};
ghost use Rattle.gather_record.specs.Record.{begin_of};
ghost use Rattle.gather_take.specs.Take.{take_of};
ghost use Rattle.gather_finish.specs.Finish.{finish_of};
ghost use Rattle.c_gather.specs.Calls.{GathersNumber, FinishesMended};

use c_answers::Mended;
use gather_record::Gather;

#[unsafe(no_mangle)]
pub extern "C" fn axlebloom_gather_begin(gather: &mut Gather, m: usize, w: usize, c: usize) -> u8
    ensures { GathersNumber (begin_of m w c gather.old) gather.new result }
{
    let g = *gather;
    let r = gather_record::begin(g, m, w, c);
    *gather = r.gather;
    c_answers::number(r.answer)
}

#[unsafe(no_mangle)]
pub extern "C" fn axlebloom_gather_take(gather: &mut Gather, first: usize, bytes: &[u8]) -> u8
    ensures { GathersNumber (take_of first bytes.now gather.old) gather.new result }
{
    let g = *gather;
    let r = gather_take::take(g, first, bytes);
    *gather = r.gather;
    c_answers::number(r.answer)
}

#[unsafe(no_mangle)]
pub extern "C" fn axlebloom_gather_finish(gather: &mut Gather, word: &mut [u8]) -> Mended
    ensures { FinishesMended (finish_of word.old gather.old) word.new gather.new result }
{
    let g = *gather;
    let r = gather_finish::finish(g, word);
    *gather = r.gather;
    c_answers::mended_of(r.answer)
}
