// Block rebuild and its version, as C calls them.

#![tactic(auto)]

ghost use Rattle.std.specs.Prelude.{◌≡◌};
ghost use Rattle.block_rebuild.specs.Rebuild.{rebuild_of};
ghost use Rattle.c_blocks.specs.RebuildAnswer.{outcome_answer};
ghost use Rattle.release.specs.Version.{library_version};

use block_rebuild::Failure;

// What a rebuild gives to C: the number, 0 for done, and the word and the group that a 9 carries; 0 with any other number.
#[repr(C)]
#[derive(Clone, Copy)]
pub struct RebuildAnswer {
    pub word: usize,
    pub number: u8,
    pub group: u8,
}

#[unsafe(no_mangle)]
pub extern "C" fn axlebloom_rebuild(
    m: usize,
    w: usize,
    c: usize,
    length: usize,
    blocks: &mut [u8],
    marks: &mut [u8],
) -> RebuildAnswer
    ensures answer { result ≡ outcome_answer (rebuild_of m w c length blocks.old marks.old) }
    ensures blocks { blocks.new ≡ (rebuild_of m w c length blocks.old marks.old).blocks }
    ensures marks { marks.new ≡ (rebuild_of m w c length blocks.old marks.old).marks }
{
    match block_rebuild::rebuild(m, w, c, length, blocks, marks) {
        Ok(()) => RebuildAnswer {
            word: 0,
            number: 0,
            group: 0,
        },
        Err(Failure::Contradictory { word, group }) => RebuildAnswer {
            word,
            number: 9,
            group,
        },
        Err(Failure::Refused(e)) => RebuildAnswer {
            word: 0,
            number: e.number(),
            group: 0,
        },
    }
}

#[unsafe(no_mangle)]
pub extern "C" fn axlebloom_blocks_version() -> u32
    ensures { result ≡ library_version }
{
    release::version()
}
