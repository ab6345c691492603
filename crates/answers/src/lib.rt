// What services answer: done with figures, or a refusal. Both editions answer in these types.

#![tactic(auto)]

ghost use Rattle.std.specs.Prelude.{◌≡◌, ℕ, ◌<◌, ◌≤◌, true, false};
ghost use Rattle.code.specs.Refusals.{◌or_else◌};
ghost use Rattle.code.specs.Limits.{retired_refusal};
ghost use Rattle.answers.specs.Answers.{refusal_number, refused_number};

// Why a call is refused. A number stands for each in docs/NUMBERS.md; a 9 carries the number of a group.
#[derive(Clone, Copy, Debug, PartialEq, Eq)]
pub enum Refusal {
    Groups,
    Checks,
    Width,
    NoData,
    Length,
    Mark,
    GroupNumber,
    Undetermined,
    Contradictory(u8),
    AllIssued,
    DeskFull,
    NotOpen,
    ServedOut,
    CatalogueText,
    Name,
    NoSuchName,
    Revision,
    RevisionEnd,
    CatalogueFull,
    Finished,
    Beyond,
    CameBefore,
    Place,
    WidePlaces,
    BlocksLength,
    NoProfile,
    Retired,
    DataNumber,
    Unsound,
}

impl Refusal {
    // The number that docs/NUMBERS.md has for it.
    pub fn number(self) -> u8
        ensures { result ≡ refusal_number self }
    {
        match self {
            Refusal::Groups => 1,
            Refusal::Checks => 2,
            Refusal::Width => 3,
            Refusal::NoData => 4,
            Refusal::Length => 5,
            Refusal::Mark => 6,
            Refusal::GroupNumber => 7,
            Refusal::Undetermined => 8,
            Refusal::Contradictory(_) => 9,
            Refusal::AllIssued => 10,
            Refusal::DeskFull => 11,
            Refusal::NotOpen => 12,
            Refusal::ServedOut => 13,
            Refusal::CatalogueText => 16,
            Refusal::Name => 17,
            Refusal::NoSuchName => 18,
            Refusal::Revision => 19,
            Refusal::RevisionEnd => 20,
            Refusal::CatalogueFull => 21,
            Refusal::Finished => 22,
            Refusal::Beyond => 23,
            Refusal::CameBefore => 24,
            Refusal::Place => 25,
            Refusal::WidePlaces => 26,
            Refusal::BlocksLength => 27,
            Refusal::NoProfile => 28,
            Refusal::Retired => 29,
            Refusal::DataNumber => 30,
            Refusal::Unsound => 31,
        }
    }
}

// The figures of a good shape: the bytes of a word, its bytes of data and its sure count.
#[derive(Clone, Copy, Debug, PartialEq, Eq)]
pub struct Figures {
    pub n: usize,
    pub k: usize,
    pub sure: usize,
}

// What the test of a word's equations finds: whether it is a codeword, and the lowest group whose local sums are not all zero, or m if there
// is none.
#[derive(Clone, Copy)]
pub struct Tested {
    pub codeword: bool,
    pub group: usize,
}

impl Tested {
    // The test of a word by its m groups in turn and then, where all are sound, by its sums across.
    pub fn by<S: Fn(usize) -> bool, A: FnOnce() -> bool>(
        m: usize,
        is_sound: S,
        is_zero_across: A,
    ) -> Tested
        requires groups { (g : ℕ) → g < m → S.pre is_sound g }
        requires across { A.pre is_zero_across }
        ensures bound { result.group ≤ m }
        ensures sound { (g : ℕ) → g < result.group → S.post is_sound g true }
        ensures broken { result.group < m → S.post is_sound result.group false × (result.codeword ≡ false) }
        ensures whole { result.group ≡ m → A.post is_zero_across result.codeword }
    {
        for g in 0..m {
            if !is_sound(g) {
                return Tested {
                    codeword: false,
                    group: g,
                };
            }
        }
        Tested {
            codeword: is_zero_across(),
            group: m,
        }
    }
}

// The first of two refusals by their numbers, 0 being none.
pub fn or_else(first: u8, second: u8) -> u8
    ensures { result ≡ first or_else second }
{
    if first != 0 { first } else { second }
}

// Out of sale: services that make something new of a shape refuse so many checks; old words with them stay readable.
pub const RETIRED_CHECKS: usize = 4;

// Refuses a number of checks that is out of sale, as 29.
pub fn retired_refusal(c: usize) -> Result<(), Refusal>
    ensures { refused_number result ≡ retired_refusal c }
{
    if c == RETIRED_CHECKS {
        Err(Refusal::Retired)
    } else {
        Ok(())
    }
}
