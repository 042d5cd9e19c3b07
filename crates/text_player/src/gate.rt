//! A gate that holds one thread until another has done something.

use std::sync::atomic::{AtomicU64, Ordering};
use std::thread::yield_now;

// Nothing happened yet; the one who opens it is ready; a thread is held; it may pass; and it was held for too long.
const CLOSED: u64 = 0;

const READY: u64 = 1;

const HELD: u64 = 2;

const PASSED: u64 = 3;

const LATE: u64 = 4;

// How often a thread looks at the most.
const MOST_TURNS: u32 = 10_000_000;

/// A gate that holds one thread until another opens it.
#[derive(Drop)]
pub struct Gate {
    stage: AtomicU64,
}

impl Gate {
    pub fn new() -> Self {
        Gate {
            stage: AtomicU64::new(CLOSED),
        }
    }

    // Waits for a stage, for so many turns at the most, and says whether it came.
    fn comes(&self, stage: u64) -> bool {
        for _ in 0..MOST_TURNS {
            if self.stage.load(Ordering::SeqCst) == stage {
                return true;
            }
            yield_now();
        }
        false
    }

    /// Says that whoever is to open it is ready.
    pub fn make_ready(&self) {
        self.stage.store(READY, Ordering::SeqCst);
    }

    /// Waits until whoever is to open it is ready, and says whether that came.
    pub fn is_ready(&self) -> bool {
        self.comes(READY)
    }

    /// Holds this thread until another opens the gate, or for so many turns.
    pub fn hold(&self) {
        self.stage.store(HELD, Ordering::SeqCst);
        if !self.comes(PASSED) {
            self.stage.store(LATE, Ordering::SeqCst);
        }
    }

    /// Waits until a thread is held, and says whether one is.
    pub fn is_holding(&self) -> bool {
        self.comes(HELD)
    }

    /// Opens the gate, and says whether a thread was held until then.
    pub fn open(&self) -> bool {
        self.stage
            .compare_exchange(HELD, PASSED, Ordering::SeqCst, Ordering::SeqCst)
            .is_ok()
    }
}
