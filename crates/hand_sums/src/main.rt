// The hand sums, by the code: products and an inverse, the locators, the figures of shapes, and words that are checked, judged, encoded,
// recovered and repaired.

#![tactic(auto)]

use answers::Refusal;
use shape::Bytes;
use std::io;

fn product_line(rt: &impl Print, a: u8, b: u8) -> io::Result<()> {
    print!(rt; "{a} * ")?;
    print!(rt; "{b} = ")?;
    println!(rt; "{}", gf256::shifted_product(a, b))
}

fn locator_line(rt: &impl Print) -> io::Result<()> {
    print!(rt; "locators")?;
    for j in 0..16 {
        print!(rt; " ")?;
        print!(rt; "{}", gf256::locators::locator(j))?;
    }
    println!(rt)
}

fn describe_line(rt: &impl Print, m: usize, w: usize, c: usize) -> io::Result<()> {
    match shape::describe::<Bytes>(m, w, c) {
        Ok(f) => println!(rt; "{} bytes, {} data, sure {}", f.n, f.k, f.sure),
        Err(e) => refused_line(rt, e),
    }
}

fn refused_line(rt: &impl Print, refusal: Refusal) -> io::Result<()> {
    println!(rt; "refused {}", refusal.number())
}

fn check_line(rt: &impl Print, word: &[u8]) -> io::Result<()> {
    match word_check::check(2, 3, 1, word) {
        Ok(None) => println!(rt; "codeword"),
        Ok(Some(group)) => println!(rt; "no codeword {group}"),
        Err(e) => refused_line(rt, e),
    }
}

fn judge_line(rt: &impl Print, marks: &[u8]) -> io::Result<()> {
    match judge::judge::<Bytes>(2, 3, 1, marks) {
        Ok(()) => println!(rt; "determined"),
        Err(e) => refused_line(rt, e),
    }
}

fn bytes_line(rt: &impl Print, bytes: &[u8]) -> io::Result<()> {
    for byte in bytes {
        print!(rt; " ")?;
        print!(rt; "{byte}")?;
    }
    println!(rt)
}

fn answer_line(rt: &impl Print, answer: Result<(), Refusal>, word: &[u8]) -> io::Result<()> {
    match answer {
        Ok(()) => {
            print!(rt; "done:")?;
            bytes_line(rt, word)
        }
        Err(Refusal::Contradictory(group)) => println!(rt; "refused 9 {group}"),
        Err(e) => refused_line(rt, e),
    }
}

fn recover_line(rt: &impl Print, word: &mut [u8], marks: &mut [u8]) -> io::Result<()> {
    let mending = recover::recover(2, 3, 1, word, marks);
    answer_line(rt, mending, word)
}

fn repair_line(rt: &impl Print, word: &mut [u8], marks: &mut [u8]) -> io::Result<()> {
    let mending = repair::repair(2, 3, 1, 1, word, marks);
    answer_line(rt, mending, word)
}

fn encodings(rt: &impl Print) -> io::Result<()> {
    let mut four = [0u8; 4];
    let one = encode::encode(1, 4, 1, &[1], &mut four);
    answer_line(rt, one, &four)?;
    let mut six = [0u8; 6];
    let two = encode::encode(2, 3, 1, &[1, 1], &mut six);
    answer_line(rt, two, &six)?;
    let short = encode::encode(2, 3, 1, &[1], &mut six);
    answer_line(rt, short, &six)
}

fn recoveries(rt: &impl Print) -> io::Result<()> {
    recover_line(
        rt,
        &mut [255, 255, 255, 78, 206, 128],
        &mut [1, 1, 1, 0, 0, 0],
    )?;
    recover_line(rt, &mut [1, 1, 0, 78, 206, 128], &mut [1, 1, 1, 1, 1, 0])?;
    recover_line(rt, &mut [1, 1, 0, 78, 206, 129], &mut [0, 0, 0, 0, 0, 0])?;
    recover_line(rt, &mut [1, 1, 0, 78, 206, 129], &mut [0, 1, 0, 0, 1, 0])?;
    repair_line(rt, &mut [1, 1, 9, 255, 206, 128], &mut [0, 0, 0, 1, 0, 0])?;
    repair_line(rt, &mut [1, 1, 9, 255, 255, 128], &mut [0, 0, 0, 1, 1, 0])?;
    repair_line(rt, &mut [1, 1, 9, 79, 206, 128], &mut [0, 0, 0, 0, 0, 0])
}

fn shapes(rt: &impl Print) -> io::Result<()> {
    describe_line(rt, 2, 3, 1)?;
    describe_line(rt, 1, 3, 1)?;
    describe_line(rt, 15, 16, 4)?;
    describe_line(rt, 16, 16, 4)?;
    describe_line(rt, 15, 16, 5)?;
    describe_line(rt, 15, 17, 4)?;
    describe_line(rt, 300, 3, 1)?;
    describe_line(
        rt,
        18446744073709551615,
        18446744073709551615,
        18446744073709551615,
    )
}

fn words(rt: &impl Print) -> io::Result<()> {
    check_line(rt, &[1, 1, 0, 78, 206, 128])?;
    check_line(rt, &[1, 1, 0, 78, 206, 129])?;
    check_line(rt, &[1, 1, 0, 78, 206])?;
    judge_line(rt, &[1, 1, 1, 0, 0, 0])?;
    judge_line(rt, &[1, 1, 1, 1, 1, 0])?;
    judge_line(rt, &[1, 1, 1, 1, 2, 0])
}

fn field(rt: &impl Print) -> io::Result<()> {
    product_line(rt, 2, 128)?;
    product_line(rt, 152, 152)?;
    product_line(rt, 152, 11)?;
    product_line(rt, 0, 77)?;
    print!(rt; "3 ^ 16 = ")?;
    println!(rt; "{}", gf256::power(3, 16))?;
    print!(rt; "1 / 152 = ")?;
    println!(rt; "{}", gf256::inverse(152))?;
    locator_line(rt)
}

fn main(rt: HostRuntime) -> io::Result<()> {
    field(&rt)?;
    shapes(&rt)?;
    words(&rt)?;
    encodings(&rt)?;
    recoveries(&rt)
}
