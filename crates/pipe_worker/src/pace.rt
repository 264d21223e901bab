//! How long the instances are that a worker runs.

// An instance of fewer steps is short: its calls of the book take longer than it does if other workers
// make calls too.
const SHORT_STEPS: u64 = 500;

// The steps that take as long as an access.
const ACCESS_STEPS: u64 = 64;

// Which part of the greatest length is forgotten with each instance.
const FORGOTTEN: u64 = 64;

/// The length of the longest instance that a worker has run of late, in steps. Where all instances are
/// short, workers that steal from each other only make each other wait for the book.
#[derive(Drop)]
pub(crate) struct Pace {
    longest: u64,
}

impl Pace {
    // Returns the pace of a worker that has run nothing: it steals until it has run short instances for
    // a while.
    pub fn new() -> Self {
        Pace {
            longest: 2 * SHORT_STEPS,
        }
    }

    // The worker has run an instance of this length.
    pub fn note(&mut self, length: u64) {
        let kept = self.longest - self.longest / FORGOTTEN;
        self.longest = kept.max(length);
    }

    // Returns whether all instances of late were short.
    pub fn is_short(&self) -> bool {
        self.longest < SHORT_STEPS
    }
}

// Returns the length of an instance that has taken `steps` steps and asked for `accesses` accesses.
pub(crate) fn length_of(steps: i64, accesses: u64) -> u64 {
    let waits = ACCESS_STEPS.saturating_mul(accesses);
    u64::try_from(steps).unwrap_or(0).saturating_add(waits)
}
