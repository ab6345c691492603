// Block rebuild: n blocks of equal length laid end to end, of which byte x of every block makes word x.

#![tactic(auto)]

ghost use Rattle.std.specs.Prelude.{◌≡◌, ◌*◌, ◌≤◌, ◌<◌, length};
ghost use Rattle.answers.specs.Answers.{refused_number, mending_at};
ghost use Rattle.code.specs.Limits.{place_count};
ghost use Rattle.byte_edition.specs.Edition.{byte_edition};
ghost use Rattle.code_services.specs.Recover.{recover_in};
ghost use Rattle.block_rebuild.specs.declared.Failure.TheVariants.{Refused};
ghost use Rattle.block_rebuild.specs.Columns.{block_word};
ghost use Rattle.block_rebuild.specs.Rebuild.{blocks_refusal, rebuild_refusal, word_outcome, rebuild_of, outcome_rebuilt};
ghost use Rattle.block_rebuild.specs.Rebuild.{rebuilt_number, rebuilt_word, rebuilt_group};
ghost use Rattle.block_rebuild.specs.Steps.{Room};

use answers::Refusal;
use shape::Bytes;

// Why a rebuild is not done: a word contradicts, the lowest that does and its group, or another refusal.
#[derive(Clone, Copy, Debug, PartialEq, Eq)]
pub enum Failure {
    Contradictory { word: usize, group: u8 },
    Refused(Refusal),
}

impl From<Refusal> for Failure {
    ghost from_gives = { λ refusal failure. failure ≡ Refused refusal };

    fn from(refusal: Refusal) -> Failure {
        Failure::Refused(refusal)
    }
}

// Refuses n blocks of this length as 27 if they are not the bytes lent, or are none or too many.
fn blocks_refusal(n: usize, size: usize, lent: usize) -> Result<(), Refusal>
    requires { (1 ≤ n) × (n ≤ 240) }
    ensures { refused_number result ≡ blocks_refusal n size lent }
{
    if size == 0 {
        return Err(Refusal::BlocksLength);
    }
    if 65536 < size {
        return Err(Refusal::BlocksLength);
    }
    let all = n * size;
    if 65536 < all {
        return Err(Refusal::BlocksLength);
    }
    if lent == all {
        Ok(())
    } else {
        Err(Refusal::BlocksLength)
    }
}

// Refuses a call, as 1 to 6, 27, then 8.
fn refusal(
    m: usize,
    w: usize,
    c: usize,
    size: usize,
    lent: usize,
    marks: &[u8],
) -> Result<(), Refusal>
    ensures { refused_number result ≡ rebuild_refusal m w c size lent marks.now }
{
    marks::marks_refusal::<Bytes>(m, w, c, marks)?;
    blocks_refusal(marks.len(), size, lent)?;
    judge::judge::<Bytes>(m, w, c, marks)
}

// Copies word x of the blocks.
fn gather(blocks: &[u8], size: usize, x: usize, word: &mut [u8])
    requires { (x < size) × (length word.old * size ≡ length blocks.now) × (length blocks.now ≤ 65536) }
    ensures { word.new ≡ block_word (length word.old) size blocks.now x }
{
    for (p, byte) in word.iter_mut().enumerate() {
        *byte = blocks[p * size + x];
    }
}

// Recovers a word by a copy of the marks, which stay; lost is room for the copy.
fn recover_by(
    m: usize,
    w: usize,
    c: usize,
    word: &mut [u8],
    marks: &[u8],
    lost: &mut [u8],
) -> Result<(), Refusal>
    requires { length lost.old ≡ length marks.now }
    ensures value { result ≡ mending_at (recover_in byte_edition m w c word.old marks.now).number (recover_in byte_edition m w c word.old marks.now).group }
    ensures word_after { word.new ≡ (recover_in byte_edition m w c word.old marks.now).word }
{
    buffers::copy_from_slice(lost, marks);
    recover::recover(m, w, c, word, lost)
}

// Word x of the blocks, recovered in word, and what Recover answers; the marks stay.
fn recover_word(
    m: usize,
    w: usize,
    c: usize,
    size: usize,
    x: usize,
    blocks: &[u8],
    marks: &[u8],
    word: &mut [u8],
) -> Result<(), Refusal>
    requires room { Room m w c size x blocks.now marks.now }
    requires word_len { length word.old ≡ place_count m w }
    ensures value { result ≡ mending_at (word_outcome m w c size blocks.now marks.now x).number (word_outcome m w c size blocks.now marks.now x).group }
    ensures word_after { word.new ≡ (word_outcome m w c size blocks.now marks.now x).word }
{
    gather(blocks, size, x, word);
    let n = marks.len();
    let mut lost = [0u8; 240];
    recover_by(m, w, c, word, marks, &mut lost[..n])
}

// The group that word x contradicts with.
fn group_at(m: usize, w: usize, c: usize, size: usize, x: usize, blocks: &[u8], marks: &[u8]) -> u8
    requires room { Room m w c size x blocks.now marks.now }
    requires x_value { (word_outcome m w c size blocks.now marks.now x).number ≡ 9 }
    ensures { result ≡ (word_outcome m w c size blocks.now marks.now x).group }
{
    let n = marks.len();
    let mut word = [0u8; 240];
    match recover_word(m, w, c, size, x, blocks, marks, &mut word[..n]).unwrap_err() {
        Refusal::Contradictory(group) => group,
        _ => unreachable!(),
    }
}

// Recovers all words of the blocks and clears the marks, or refuses and changes nothing.
pub fn rebuild(
    m: usize,
    w: usize,
    c: usize,
    size: usize,
    blocks: &mut [u8],
    marks: &mut [u8],
) -> Result<(), Failure>
    ensures answer { result ≡ outcome_rebuilt (rebuild_of m w c size blocks.old marks.old) }
    ensures blocks { blocks.new ≡ (rebuild_of m w c size blocks.old marks.old).blocks }
    ensures marks { marks.new ≡ (rebuild_of m w c size blocks.old marks.old).marks }
    ensures number { rebuilt_number result ≡ (rebuild_of m w c size blocks.old marks.old).number }
    ensures word { rebuilt_word result ≡ (rebuild_of m w c size blocks.old marks.old).word }
    ensures group { rebuilt_group result ≡ (rebuild_of m w c size blocks.old marks.old).group }
{
    refusal(m, w, c, size, blocks.len(), marks)?;
    let x = block_engine::mend(m, w, c, size, blocks, marks);
    if x < size {
        let group = group_at(m, w, c, size, x, blocks, marks);
        return Err(Failure::Contradictory { word: x, group });
    }
    marks.fill(0);
    Ok(())
}
