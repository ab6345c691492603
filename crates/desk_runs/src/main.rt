// A desk in use: handles that are open, closed or never issued, a full desk, the ends of its counts, losses that change while a job is open, and
// records that are not sound.

#![tactic(auto)]

use answers::Refusal;
use desk_job::Job;
use desk_record::Desk;
use std::io;

fn refused(rt: &impl Print, refusal: Refusal) -> io::Result<()> {
    let r = refusal.number();
    println!(rt; "refused {r}")
}

// Opens a job for shape m 2, w 3, c 1 with the first three places lost.
fn open(rt: &impl Print, d: Desk) -> io::Result<Desk> {
    let after = desk_open::open(d, 2, 3, 1, &[1, 1, 1, 0, 0, 0]);
    match after.answer {
        Ok(h) => println!(rt; "handle {h}")?,
        Err(e) => refused(rt, e)?,
    }
    Ok(after.desk)
}

fn done(rt: &impl Print, answer: Result<(), Refusal>) -> io::Result<()> {
    match answer {
        Ok(()) => println!(rt; "done"),
        Err(Refusal::Contradictory(group)) => println!(rt; "refused 9 {group}"),
        Err(e) => refused(rt, e),
    }
}

fn serve(rt: &impl Print, d: Desk, handle: u64, word: &mut [u8]) -> io::Result<Desk> {
    let after = desk_serve::serve(d, handle, word);
    done(rt, after.answer)?;
    Ok(after.desk)
}

fn close(rt: &impl Print, d: Desk, handle: u64) -> io::Result<Desk> {
    let after = desk_close::close(d, handle);
    done(rt, after.answer)?;
    Ok(after.desk)
}

fn read(rt: &impl Print, d: Desk, handle: u64) -> io::Result<()> {
    match desk_close::read(d, handle) {
        Ok(n) => println!(rt; "served {n}"),
        Err(e) => refused(rt, e),
    }
}

fn lose(rt: &impl Print, d: Desk, handle: u64, place: usize) -> io::Result<Desk> {
    let after = desk_change::lose(d, handle, place);
    done(rt, after.answer)?;
    Ok(after.desk)
}

fn find(rt: &impl Print, d: Desk, handle: u64, place: usize) -> io::Result<Desk> {
    let after = desk_change::find(d, handle, place);
    done(rt, after.answer)?;
    Ok(after.desk)
}

// The bytes of a word of six places, each written by itself.
fn show(rt: &impl Print, word: [u8; 6]) -> io::Result<()> {
    let [a, b, c, d, e, f] = word;
    print!(rt; "word ")?;
    for byte in [a, b, c, d, e] {
        print!(rt; "{byte} ")?;
    }
    println!(rt; "{f}")
}

// Handles 0, 7 and a closed one are refused 12. A word whose second group, numbered 1, breaks its own equation is refused 9 with 1.
fn handles(rt: &impl Print) -> io::Result<()> {
    let mut word = [255, 255, 255, 78, 206, 128];
    let mut short = [255, 255, 255, 78, 206];
    let mut broken = [255, 255, 255, 78, 206, 129];
    let a = open(rt, desk_record::fresh())?;
    read(rt, a, 0)?;
    read(rt, a, 7)?;
    read(rt, a, 18446744073709551615)?;
    let b = serve(rt, a, 8, &mut word)?;
    let c = serve(rt, serve(rt, b, 8, &mut short)?, 8, &mut broken)?;
    read(rt, c, 8)?;
    let d = close(rt, c, 8)?;
    read(rt, d, 8)?;
    let e = close(rt, d, 8)?;
    let f = open(rt, e)?;
    read(rt, f, 16)
}

// The ninth open is refused 11, then accepted after a close.
fn full(rt: &impl Print) -> io::Result<()> {
    let two = open(rt, open(rt, desk_record::fresh())?)?;
    let four = open(rt, open(rt, two)?)?;
    let eight = open(rt, open(rt, open(rt, open(rt, four)?)?)?)?;
    let nine = open(rt, eight)?;
    let freed = close(rt, nine, 44)?;
    let again = open(rt, freed)?;
    read(rt, again, 76)
}

// Open at t = 65,535 is refused 10; a served count at its end is refused 13; a record that is not sound 31.
fn ends(rt: &impl Print) -> io::Result<()> {
    let mut word = [255, 255, 255, 78, 206, 128];
    let mut last = desk_record::fresh();
    last.t = 65535;
    let still = open(rt, last)?;
    let mut job = open(rt, desk_record::fresh())?.jobs[0];
    job.served = 4294967294;
    let mut row = still.jobs;
    row[0] = job;
    let e = serve(rt, Desk { t: 1, jobs: row }, 8, &mut word)?;
    let f = serve(rt, e, 8, &mut word)?;
    read(rt, f, 8)?;
    let mut wrong = f.jobs;
    job.taken = 2;
    wrong[3] = job;
    let g = Desk { t: 1, jobs: wrong };
    read(rt, g, 8)?;
    let h = close(rt, serve(rt, open(rt, g)?, 8, &mut word)?, 8)?;
    read(rt, h, 8)
}

// A word whose last byte is wrong is refused 9 while no place is lost, and mended by the same job once that place is lost.
fn before_and_after(rt: &impl Print) -> io::Result<()> {
    let mut word = [1, 1, 0, 78, 206, 129];
    let a = close(rt, open(rt, desk_record::fresh())?, 8)?;
    let after = desk_open::open(a, 2, 3, 1, &[0; 6]);
    let b = serve(rt, after.desk, 16, &mut word)?;
    let c = lose(rt, b, 16, 5)?;
    let d = serve(rt, c, 16, &mut word)?;
    show(rt, word)?;
    read(rt, d, 16)
}

// The numbers in their order: 12, then 25, then 8. What is lost already is lost again at excess 2, and what is present is found.
fn refusals(rt: &impl Print) -> io::Result<()> {
    let a = open(rt, desk_record::fresh())?;
    let b = lose(rt, lose(rt, a, 16, 6)?, 8, 6)?;
    let c = find(rt, find(rt, b, 7, 0)?, 8, 18446744073709551615)?;
    let d = lose(rt, lose(rt, c, 8, 0)?, 8, 2)?;
    let e = find(rt, d, 8, 3)?;
    let f = lose(rt, lose(rt, e, 8, 3)?, 8, 4)?;
    read(rt, lose(rt, f, 8, 4)?, 8)
}

// After a lose refused 8 the job still counts that place as present: a serve with another byte there gives a wrong word, and nothing shows it.
// Another place is found first, and then the lose is done and the word is the right one.
fn refused_loss(rt: &impl Print) -> io::Result<()> {
    let mut garbage = [255, 255, 255, 255, 207, 128];
    let mut word = [1, 255, 255, 255, 207, 128];
    let a = lose(rt, lose(rt, open(rt, desk_record::fresh())?, 8, 3)?, 8, 4)?;
    let b = serve(rt, a, 8, &mut garbage)?;
    show(rt, garbage)?;
    let c = lose(rt, find(rt, b, 8, 0)?, 8, 4)?;
    let d = serve(rt, c, 8, &mut word)?;
    show(rt, word)?;
    read(rt, d, 8)
}

// Reads on a desk with these figures in its first job.
fn with_figures(rt: &impl Print, count: u8, past: u8, excess: u8) -> io::Result<()> {
    let d = open(rt, desk_record::fresh())?;
    let mut job: Job = d.jobs[0];
    job.lost[0] = count;
    job.lost[14] = past;
    job.excess = excess;
    let mut row = d.jobs;
    row[0] = job;
    read(rt, Desk { t: 1, jobs: row }, 8)
}

// Figures that are not those worked from the marks: 31. In a free slot they don't matter.
fn figures(rt: &impl Print) -> io::Result<()> {
    with_figures(rt, 3, 0, 2)?;
    with_figures(rt, 2, 0, 2)?;
    with_figures(rt, 3, 1, 2)?;
    with_figures(rt, 3, 0, 1)?;
    let d = open(rt, desk_record::fresh())?;
    let mut free: Job = d.jobs[7];
    free.lost[3] = 1;
    free.excess = 9;
    let mut row = d.jobs;
    row[7] = free;
    read(rt, Desk { t: 1, jobs: row }, 8)
}

fn main(rt: HostRuntime) -> io::Result<()> {
    handles(&rt)?;
    full(&rt)?;
    ends(&rt)?;
    before_and_after(&rt)?;
    refusals(&rt)?;
    refused_loss(&rt)?;
    figures(&rt)
}
