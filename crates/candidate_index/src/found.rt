//! Candidates, and why there are none.
use schema_model::Index;
use sql_value::{Items, Memory};

/// How many candidates are tried at most.
pub const CANDIDATE_LIMIT: usize = 2_000;

/// Indexes that are worth a try.
pub type Candidates = Items<Index>;

/// Why there are no candidates.
#[derive(Clone, Copy, Debug, PartialEq, Eq)]
pub enum CandidateFault {
    /// There are more than the limit.
    TooMany,
    Memory,
}

impl From<Memory> for CandidateFault {
    ghost use Rattle.candidate_index.specs.Faults.{IsMemory};

    ghost from_gives = { λ memory fault. IsMemory fault };

    fn from(_: Memory) -> CandidateFault {
        CandidateFault::Memory
    }
}
