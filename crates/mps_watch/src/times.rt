//! How long something took, counted by how long.

use crate::counts::Count;
use std::alloc::{AllocError, Global};

// The upper ends by which times are counted: in nanoseconds, and as the text form has them, in seconds.
const ENDS: &[(u64, &str)] = &[
    (100_000, "0.0001"),
    (250_000, "0.00025"),
    (500_000, "0.0005"),
    (1_000_000, "0.001"),
    (2_500_000, "0.0025"),
    (5_000_000, "0.005"),
    (10_000_000, "0.01"),
    (25_000_000, "0.025"),
    (50_000_000, "0.05"),
    (100_000_000, "0.1"),
    (250_000_000, "0.25"),
    (500_000_000, "0.5"),
    (1_000_000_000, "1"),
    (2_500_000_000, "2.5"),
    (10_000_000_000, "10"),
];

// How many nanoseconds a second has.
const SECOND: u64 = 1_000_000_000;

/// How often something took how long.
#[derive(Drop)]
pub struct Times {
    // by the end below which a time is, the last for longer ones
    counts: Vec<Count>,
    nanoseconds: Count,
}

impl Times {
    /// Nothing was counted yet.
    pub fn new(alloc: Global) -> Result<Times, AllocError> {
        let mut counts = Vec::with_capacity(alloc, ENDS.len() + 1)?;
        for _ in 0..ENDS.len() + 1 {
            counts.push(Count::new())?;
        }
        Ok(Times {
            counts,
            nanoseconds: Count::new(),
        })
    }

    /// Counts that it took so many nanoseconds.
    pub fn add(&self, nanoseconds: u64) {
        let place = ENDS
            .iter()
            .position(|end| nanoseconds <= end.0)
            .unwrap_or(ENDS.len());
        if let Some(count) = self.counts.get(place) {
            count.add(1);
        }
        self.nanoseconds.add(nanoseconds);
    }

    /// Appends how often it took at most so long, for each of some times, then how long in all, and how often.
    pub fn write(&self, alloc: Global, name: &str, out: &mut Vec<u8>) -> Result<(), AllocError> {
        let mut below = 0u64;
        for (count, end) in self.counts.iter().zip(ENDS) {
            below = below.wrapping_add(count.value());
            let end = end.1;
            let line = format!(in alloc; "{name}_bucket{{le=\"{end}\"}} {below}\n")?;
            out.extend_from_slice(line.as_bytes())?;
        }
        if let Some(longer) = self.counts.last() {
            below = below.wrapping_add(longer.value());
        }
        let line = format!(in alloc; "{name}_bucket{{le=\"+Inf\"}} {below}\n")?;
        out.extend_from_slice(line.as_bytes())?;
        write_sum(alloc, name, self.nanoseconds.value(), below, out)
    }
}

/// Appends how long something took in all, in seconds, and how often it was done.
pub fn write_sum(
    alloc: Global,
    name: &str,
    nanoseconds: u64,
    count: u64,
    out: &mut Vec<u8>,
) -> Result<(), AllocError> {
    let seconds = nanoseconds / SECOND;
    let rest = nanoseconds % SECOND;
    let lines = format!(in alloc; "{name}_sum {seconds}.{rest:09}\n{name}_count {count}\n")?;
    out.extend_from_slice(lines.as_bytes())
}
