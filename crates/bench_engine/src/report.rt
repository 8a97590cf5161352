//! The lines that report times.

use std::io;
use std::time::Duration;

// Returns the time in nanoseconds, or the greatest number if it is longer.
fn nanoseconds(taken: Duration) -> u64 {
    let seconds = taken.as_secs().saturating_mul(1_000_000_000);
    seconds.saturating_add(taken.subsec_nanos() as u64)
}

/// Prints how long one of `count` things took, in nanoseconds, with three decimals.
pub fn print_each<R: Print>(
    rt: &R,
    name: &str,
    taken: Duration,
    count: u64,
    unit: &str,
) -> io::Result<()> {
    let thousandths = nanoseconds(taken).saturating_mul(1000) / count.max(1);
    println!(rt;
        "{name} {}.{:03} {unit}",
        thousandths / 1000,
        thousandths % 1000
    )
}

/// Prints a number as a share of another, with three decimals.
pub fn print_share<R: Print>(
    rt: &R,
    name: &str,
    number: u64,
    of: u64,
    unit: &str,
) -> io::Result<()> {
    let thousandths = number.saturating_mul(1000) / of.max(1);
    println!(rt;
        "{name} {}.{:03} {unit}",
        thousandths / 1000,
        thousandths % 1000
    )
}
