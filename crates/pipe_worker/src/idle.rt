//! The pauses of a worker that finds nothing to do.

use std::sync::Wait;
use std::sync::atomic::{AtomicBool, Ordering};
use std::thread;
use std::thread::Parker;
use std::time::Duration;

// How many short pauses come before the long ones. They last some fifty microseconds in all: a long one
// takes a tenth of a millisecond, however short it is meant to be.
const SHORT_PAUSES: u32 = 16;

// How many of them keep the processor. After each further one it is given to others that wait for it, as
// there may be where workers are more than processors.
const KEPT_PAUSES: u32 = 8;

// The turns of the first short pause, and of the longest. A turn takes some 8 nanoseconds.
const FIRST_TURNS: u32 = 32;

const MOST_TURNS: u32 = 512;

// The microseconds of the first long pause, and of the longest.
const FIRST_SLEEP: u64 = 25;

const LONGEST_SLEEP: u64 = 800;

// The microseconds for which a worker of short instances rests before it steals, at first and at most.
// Each rest is twice as long as the last, until the worker has run a longer instance. So the tasks of
// short instances stay with one worker, mostly. A longer rest would delay the end of the run, since a
// worker that rests does not see it.
const FIRST_REST: u64 = 200;

const LONGEST_REST: u64 = 800;

// How often a worker looks for a task again before it asks the book once more, while its pauses are
// short and when they are long. The book has a lock, which workers with instances need.
const SHORT_LOOKS: u32 = 4;

const LONG_LOOKS: u32 = 1;

/// How long a worker has found nothing. Its first pauses are short, since a stage may take only some
/// microseconds. In the long ones that follow, each twice as long as the last up to a bound, its processor
/// is free for others.
#[derive(Drop)]
pub(crate) struct Idle {
    word: AtomicBool,
    pauses: u32,
    turns: u32,
    micros: u64,
    sleep: Parker,
    // Whether the book had nothing when it was asked last, or before an iteration was left to others.
    waits: bool,
    // Whether an iteration was left to others when the book was asked last.
    left: bool,
    // Whether the worker has rested since it found something.
    rested: bool,
    // The microseconds of its next rest.
    rest: u64,
}

impl Idle {
    // Returns the state of a worker that has something to do.
    pub fn new() -> Self {
        Idle {
            word: AtomicBool::new(false),
            pauses: 0,
            turns: FIRST_TURNS,
            micros: FIRST_SLEEP,
            sleep: Parker::new(),
            waits: false,
            left: false,
            rested: false,
            rest: FIRST_REST,
        }
    }

    // The worker has found something.
    pub fn reset(&mut self) {
        self.pauses = 0;
        self.turns = FIRST_TURNS;
        self.micros = FIRST_SLEEP;
        self.waits = false;
        self.left = false;
        self.rested = false;
    }

    // Returns whether the worker may steal and ask the book. One that has run only short instances of late
    // rests first: where instances are short, workers that share them out wait for the book longer than
    // one needs for all of them.
    pub fn may_steal(&mut self, is_short: bool) -> bool {
        if !is_short {
            self.rest = FIRST_REST;
        }
        self.rested || !is_short
    }

    // Rests, once, until the worker has found something again.
    pub fn rest<R: Wait>(&mut self, rt: &R) {
        self.rested = true;
        self.sleep
            .park_timeout(rt, Duration::from_micros(self.rest));
        self.rest = self.rest.saturating_mul(2).min(LONGEST_REST);
    }

    // Returns whether the worker may begin an iteration that the book lets begin. The worker of the last
    // iteration does so itself as a rule, a moment later. So one that waits leaves it to that one at
    // first, and begins it if the book says so twice.
    pub fn may_begin(&self) -> bool {
        !self.waits || self.left
    }

    // The book had nothing to do. Returns how often the worker is to look for a task before it asks the
    // book again.
    pub fn after_nothing(&mut self) -> u32 {
        self.waits = true;
        self.left = false;
        self.looks()
    }

    // An iteration was left to others. Returns how often the worker is to look for a task before it asks
    // the book again.
    pub fn after_offer(&mut self) -> u32 {
        self.left = true;
        self.looks()
    }

    fn looks(&self) -> u32 {
        if self.pauses < SHORT_PAUSES {
            SHORT_LOOKS
        } else {
            LONG_LOOKS
        }
    }

    // Makes a short pause, of atomic steps on a word that no other thread has: `hint::spin_loop` is no
    // instruction in this toolchain, so a loop of it, as in `Backoff`, takes no time.
    fn spin(&self) {
        for _ in 0..self.turns {
            let _ = self.word.swap(true, Ordering::SeqCst);
        }
    }

    // Pauses, longer if the worker has found nothing for long.
    pub fn pause<R: Wait>(&mut self, rt: &R) {
        if self.pauses < SHORT_PAUSES {
            self.pauses += 1;
            self.spin();
            self.turns = self.turns.saturating_mul(2).min(MOST_TURNS);
            if self.pauses > KEPT_PAUSES {
                thread::yield_now();
            }
        } else {
            self.sleep
                .park_timeout(rt, Duration::from_micros(self.micros));
            self.micros = self.micros.saturating_mul(2).min(LONGEST_SLEEP);
        }
    }
}
