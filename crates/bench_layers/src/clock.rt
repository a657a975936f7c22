//! Speeds, and how they compare.
use std::time::Duration;

/// How many a second, where there were so many in this time.
pub fn in_a_second(count: u64, took: Duration) -> u128 {
    u128::from(count) * 1_000_000_000 / took.as_nanos().max(1)
}

/// Bytes in a microsecond, which are megabytes in a second.
pub fn megabytes(bytes: u64, took: Duration) -> u128 {
    u128::from(bytes) / took.as_micros().max(1)
}

/// How many hundredths of the other the one is.
pub fn hundredths(one: u128, other: u128) -> u128 {
    if other == 0 {
        0
    } else {
        one.wrapping_mul(100) / other
    }
}
