//! Durations of requests.

ghost use Rattle.std.specs.Prelude.{◌≡◌, ◌<◌, ◌≤◌, length, position, nat_le, IfSome};
ghost use Rattle.tfs_metrics.specs.Durations.{with_duration, sum_of, bucket_of, bucket_in};

/// The upper bounds of the buckets of durations, in microseconds. Longer durations are in a last
/// bucket without a bound.
pub const BOUNDS: [u64; 10] = [
    100, 500, 1_000, 5_000, 10_000, 50_000, 100_000, 500_000, 1_000_000, 10_000_000,
];

/// Counts of durations: how many are in each bucket, and their sum in microseconds. A number that
/// would be 2^64 or more stays at 2^64 - 1.
#[derive(Clone, Copy, Debug)]
pub struct Durations {
    pub(crate) buckets: [u64; 11],
    pub(crate) micros: u64,
}

impl Durations {
    /// Makes counts of no duration.
    pub const NONE: Durations = Durations {
        buckets: [0; 11],
        micros: 0,
    };

    /// Counts a duration in microseconds.
    pub fn add(&mut self, micros: u64)
        ensures buckets { self.new.buckets ≡ with_duration micros self.old.buckets }
        ensures micros { self.new.micros ≡ sum_of self.old.micros micros }
    {
        let bucket = bucket_of(micros);
        self.buckets[bucket] = self.buckets[bucket].saturating_add(1);
        self.micros = self.micros.saturating_add(micros);
    }
}

/// Returns the number of the bucket of a duration in microseconds.
fn bucket_of(micros: u64) -> usize
    ensures bucket { result ≡ bucket_of micros }
    ensures small { result < 11 }
{
    bucket_in(&BOUNDS, micros)
}

/// Returns the number of the first bound that a duration doesn't exceed, or the number of bounds.
fn bucket_in(bounds: &[u64], micros: u64) -> usize
    ensures bucket { result ≡ bucket_in bounds.now micros }
    ensures small { result ≤ length bounds.now }
{
    match first_bound(bounds, micros) {
        Some(bucket) => bucket,
        None => bounds.len(),
    }
}

/// Returns the number of the first bound that a duration doesn't exceed.
fn first_bound(bounds: &[u64], micros: u64) -> Option<usize>
    ensures first { result ≡ position (λ bound. nat_le micros bound) bounds.now }
    ensures small { IfSome result (λ bucket. bucket < length bounds.now) }
{
    bounds.iter().position(|bound| micros <= *bound)
}
