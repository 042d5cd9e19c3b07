//! How many connections the handles of a door are still to give.

use host_base::Memory;
use std::alloc::Global;
use std::sync::Arc;
use std::sync::atomic::{AtomicU64, Ordering};

/// How many connections the handles of a door are still to give, all together.
#[derive(Drop)]
pub(crate) struct Plan {
    due: Arc<AtomicU64, Global>,
}

impl Plan {
    /// None is to be given.
    pub fn none(alloc: Global) -> Result<Self, Memory> {
        let due = Arc::new(alloc, AtomicU64::new(0))?;
        Ok(Plan { due })
    }

    /// The same plan, for another handle.
    pub fn share(&self) -> Result<Self, Memory> {
        let due = Arc::try_clone(&self.due)?;
        Ok(Plan { due })
    }

    /// So many are to be given.
    pub fn expect(&self, count: u32) {
        self.due.store(u64::from(count), Ordering::SeqCst);
    }

    /// Takes the right to give one, where one is to be given.
    pub fn take(&self) -> bool {
        self.due
            .fetch_update(Ordering::SeqCst, Ordering::SeqCst, |due| due.checked_sub(1))
            .is_ok()
    }
}
