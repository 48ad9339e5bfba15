//! Times of the processor, and their ratio.

use std::alloc::{AllocError, Global};
use std::time::CpuClock;

/// The processor time of the program, in nanoseconds; 0 where the clock fails.
pub fn cpu_nanos(rt: &HostRuntime) -> u128 {
    match rt.process_cpu_time() {
        Ok(time) => time.as_nanos(),
        Err(_) => 0,
    }
}

/// Nanoseconds of the processor.
#[derive(Clone, Copy)]
pub struct Times {
    /// Building the relations.
    pub build: u128,
    /// The runs.
    pub run: u128,
    /// The proofs from them.
    pub proof: u128,
    /// Reading the files with the proofs, and testing their blocks.
    pub recheck: u128,
}

/// A time over another one, with three digits behind the point.
fn ratio_of(alloc: Global, part: u128, whole: u128) -> Result<String, AllocError> {
    let all = match whole {
        0 => 0,
        _ => part.saturating_mul(1000) / whole,
    };
    let whole = all / 1000;
    let first = all / 100 % 10;
    let second = all / 10 % 10;
    let third = all % 10;
    format!(in alloc; "{whole}.{first}{second}{third}")
}

impl Times {
    pub fn zero() -> Times {
        Times {
            build: 0,
            run: 0,
            proof: 0,
            recheck: 0,
        }
    }

    pub fn plus(self, other: Times) -> Times {
        Times {
            build: self.build.saturating_add(other.build),
            run: self.run.saturating_add(other.run),
            proof: self.proof.saturating_add(other.proof),
            recheck: self.recheck.saturating_add(other.recheck),
        }
    }

    /// The proofs' time over the runs' time.
    pub fn proof_ratio(self, alloc: Global) -> Result<String, AllocError> {
        ratio_of(alloc, self.proof, self.run)
    }

    /// The time of reading and testing over that of building and the runs.
    pub fn recheck_ratio(self, alloc: Global) -> Result<String, AllocError> {
        ratio_of(alloc, self.recheck, self.build.saturating_add(self.run))
    }
}
