// The answers as numbers, in the structs that C reads.
ghost use Rattle.std.specs.Prelude.{◌≡◌};
ghost use Rattle.saltbalance_c.specs.Said.{said, block, count};

use rules::{Answer, Covered, Refusal, answers};

// An answer: its number and its detail.
#[repr(C)]
#[derive(Clone, Copy, Debug, PartialEq, Eq)]
pub struct Said {
    pub number: usize,
    pub detail: usize,
}

// What cover answers: refusal 0, the block's id and its state; or a refusal, and zeros. C knows no Result.
#[repr(C)]
#[derive(Clone, Copy, Debug, PartialEq, Eq)]
pub struct CoveredBlock {
    pub refusal: usize,
    pub id: usize,
    pub state: usize,
}

// What map answers: refusal 0 and the number of ids in the row; or a refusal, and zero. C knows no Result.
#[repr(C)]
#[derive(Clone, Copy, Debug, PartialEq, Eq)]
pub struct MappedBlocks {
    pub refusal: usize,
    pub blocks: usize,
}

// An answer in numbers, or the refusal's.
impl From<Result<Answer, Refusal>> for Said {
    ghost from_gives = { λ answered s. s ≡ said answered };

    fn from(answered: Result<Answer, Refusal>) -> Said {
        Said {
            number: answers::number(answered),
            detail: answers::detail(answered),
        }
    }
}

// What cover answers, in numbers.
impl From<Result<Covered, Refusal>> for CoveredBlock {
    ghost from_gives = { λ covered b. b ≡ block covered };

    fn from(covered: Result<Covered, Refusal>) -> CoveredBlock {
        match covered {
            Ok(Covered { id, state }) => CoveredBlock {
                refusal: 0,
                id,
                state: usize::from(state),
            },
            Err(refusal) => CoveredBlock {
                refusal: answers::refusal_number(refusal),
                id: 0,
                state: 0,
            },
        }
    }
}

// What map answers, in numbers.
impl From<Result<usize, Refusal>> for MappedBlocks {
    ghost from_gives = { λ mapped m. m ≡ count mapped };

    fn from(mapped: Result<usize, Refusal>) -> MappedBlocks {
        match mapped {
            Ok(blocks) => MappedBlocks { refusal: 0, blocks },
            Err(refusal) => MappedBlocks {
                refusal: answers::refusal_number(refusal),
                blocks: 0,
            },
        }
    }
}
