ghost use Rattle.std.specs.Prelude.{◌≡◌, IfOk};

use crate::grants::Grant;
use crate::row_list::Rows;
use crate::rows::{Account, App, Grain, Saved};
use crate::sessions::{Handle, Run, Session};
use host_base::Memory;

/// What the server keeps over a restart, each list in the order of its rows' numbers, from 1. And the moment of the last tick, in
/// seconds, which is no row: a start of the server begins at 0.
#[derive(Clone)]
pub struct Tables {
    pub accounts: Rows<Account>,
    pub apps: Rows<App>,
    pub grains: Rows<Grain>,
    pub grants: Rows<Grant>,
    pub saved: Rows<Saved>,
    pub moment: u64,
}

/// The tables, and what lives between a start and a stop of the server. Handles are in the order in which they were made.
#[derive(Clone)]
pub struct State {
    pub tables: Tables,
    pub sessions: Rows<Session>,
    pub runs: Rows<Run>,
    pub handles: Rows<Handle>,
}

// Written by hand, as that of `Rows` is: a proof then has one call wherever tables are let go.
impl Drop for Tables {
    fn drop(self) {
        let Tables {
            accounts: _,
            apps: _,
            grains: _,
            grants: _,
            saved: _,
            moment: _,
        } = self;
    }
}

impl Drop for State {
    fn drop(self) {
        let State {
            tables: _,
            sessions: _,
            runs: _,
            handles: _,
        } = self;
    }
}

/// A copy of a state.
pub fn copy_of(state: &State) -> Result<State, Memory>
    ensures { IfOk result (λ copy. copy ≡ state.now) }
{
    match state.clone() {
        Ok(copy) => Ok(copy),
        Err(_) => Err(Memory),
    }
}
