ghost use Rattle.std.specs.Prelude.{◌≡◌, ◌≤◌, List, IsTrue, Some, Err, IfOk, OnOk, OnErr, IfErr, IsErrOf};
ghost use Rattle.host_base.specs.Outside.{Rose};
ghost use Rattle.cloud_keeper.specs.declared.row.Row.{Row};
ghost use Rattle.cloud_keeper.specs.Keeping.{Keeping, LeavesAsBefore, LeavesItsRows, NoOther, RowsFollow};
ghost use Rattle.cloud_keeper.specs.Keeping.{TellsStill, TheRowsAfter, put};
ghost use Rattle.sql_keeper.specs.Fault.{fault_of, count_after};
ghost use Rattle.sql_keeper.specs.Kept.{opened_of, faults_of, keeping_of, leaves_of};
ghost use Rattle.sql_keeper.specs.KeptRows.{told_by, stop_by, StopsAsBefore, ToldFollow, StillTold};
ghost use Rattle.sql_keeper.specs.KeptRows.{Changed, LeavesTold};

use crate::commit::commit_row;
use crate::fault::keep_fault;
use crate::load::load_rows;
use cloud_keeper::{KeepFault, Keeper, Row};
use sqlite::{Alter, Connection, Error};
use std::alloc::Global;

/// A keeper over one table of a database. It tells its rows while the connection is open and the disk is clean, and what a
/// stop may leave while the disk is clean. Each refusal of the database is counted, but want of memory.
pub struct SqlKeeper<S: Alter> {
    opened: Result<Connection<S>, Error>,
    faults: u64,
}

// Written by hand, so that a proof has one call wherever a keeper is let go.
impl<S: Alter + Drop> Drop for SqlKeeper<S> {
    fn drop(self) {
        let SqlKeeper {
            opened: _,
            faults: _,
        } = self;
    }
}

impl<S: Alter> SqlKeeper<S> {
    /// A keeper over what an opening gave. Where the opening failed for want of memory, each call answers so; where it
    /// failed otherwise, each call is a fault.
    pub fn of(opened: Result<Connection<S>, Error>) -> Self
        ensures opened { opened_of result ≡ opened }
        ensures faults { faults_of result ≡ 0 }
    {
        SqlKeeper { opened, faults: 0 }
    }

    /// How many faults there were.
    pub fn faults(&self) -> u64
        ensures { result ≡ faults_of self.now }
    {
        self.faults
    }

    /// The connection, or why there is none.
    pub fn into_opened(self) -> Result<Connection<S>, Error>
        ensures { result ≡ opened_of self }
    {
        let SqlKeeper { opened, faults: _ } = self;
        opened
    }

    // Counts a fault of the store.
    fn counted(&mut self, fault: KeepFault) -> KeepFault
        ensures same { result ≡ fault }
        ensures opened { self.new.opened ≡ self.old.opened }
        ensures counted { self.new.faults ≡ count_after fault self.old.faults }
        ensures grows { self.old.faults ≤ self.new.faults }
    {
        if fault == KeepFault::StoreFailed {
            self.faults = self.faults.saturating_add(1);
        }
        fault
    }
}

// All rows, where a connection was opened.
fn load_from<S: Alter>(
    alloc: Global,
    opened: &mut Result<Connection<S>, Error>,
) -> Result<Vec<Row>, KeepFault>
    ensures loaded { (rows : List Row) → told_by S.Store opened.new ≡ Some rows
        → IfOk result (λ loaded. loaded.items ≡ rows) }
    ensures same { ToldFollow (told_by S.Store opened.old) (told_by S.Store opened.new) (λ rows. rows) }
    ensures tells { OnOk result (StillTold (told_by S.Store opened.old) (told_by S.Store opened.new)
        (stop_by S.Store opened.new) (λ rows. rows)) }
    ensures stops { StopsAsBefore (stop_by S.Store opened.old) (stop_by S.Store opened.new) NoOther }
    ensures settled { OnOk result (LeavesTold (told_by S.Store opened.new) (stop_by S.Store opened.new)) }
    ensures unopened { IfErr opened.old (λ error. (result ≡ Err (fault_of error))
        × (opened.new ≡ Err error)) }
{
    match opened {
        Err(error) => Err(keep_fault(*error)),
        Ok(conn) => load_rows(alloc, conn),
    }
}

// Keeps a row, where a connection was opened.
fn commit_to<S: Alter>(
    opened: &mut Result<Connection<S>, Error>,
    row: &Row,
) -> Result<(), KeepFault>
    ensures kept { OnOk result (ToldFollow (told_by S.Store opened.old) (told_by S.Store opened.new)
        (put row.now)) }
    ensures same { OnErr result (ToldFollow (told_by S.Store opened.old) (told_by S.Store opened.new)
        (λ rows. rows)) }
    ensures tells { OnOk result (StillTold (told_by S.Store opened.old) (told_by S.Store opened.new)
        (stop_by S.Store opened.new) (put row.now)) }
    ensures stops { StopsAsBefore (stop_by S.Store opened.old) (stop_by S.Store opened.new)
        (Changed (told_by S.Store opened.old) (put row.now)) }
    ensures settled { OnOk result (LeavesTold (told_by S.Store opened.new) (stop_by S.Store opened.new)) }
    ensures unopened { IfErr opened.old (λ error. (result ≡ Err (fault_of error))
        × (opened.new ≡ Err error)) }
{
    match opened {
        Err(error) => Err(keep_fault(*error)),
        Ok(conn) => commit_row(conn, row),
    }
}

impl<S: Alter> Keeper for SqlKeeper<S> {
    ghost keeping = { keeping_of S.Store };

    ghost may_leave = { leaves_of S.Store };

    fn load(&mut self, alloc: Global) -> Result<Vec<Row>, KeepFault>
        ensures counts { faults_of self.old ≤ faults_of self.new }
        ensures steady { OnOk result (faults_of self.new ≡ faults_of self.old) }
        ensures cause { IsErrOf result KeepFault.StoreFailed
            → Rose (faults_of self.old) (faults_of self.new) }
        ensures loaded { (rows : List Row) → (keeping_of S.Store self.new).rows ≡ Some rows
            → IfOk result (λ loaded. loaded.items ≡ rows) }
        ensures same { RowsFollow (keeping_of S.Store self.old) (keeping_of S.Store self.new) (λ rows. rows) }
        ensures clean { IsTrue (keeping_of S.Store self.new).clean
            → IsTrue (keeping_of S.Store self.old).clean }
        ensures tells { OnOk result (TellsStill (keeping_of S.Store self.old) (keeping_of S.Store self.new)
            (λ rows. rows)) }
        ensures stops { LeavesAsBefore (keeping_of S.Store self.new).clean (leaves_of S.Store self.old)
            (leaves_of S.Store self.new) NoOther }
        ensures settled { OnOk result (LeavesItsRows (keeping_of S.Store self.new)
            (leaves_of S.Store self.new)) }

        // A fault of the store is counted once, and nothing else is. Where no connection was opened, it answers why.
        ensures counted_fault { IfErr result (λ fault. faults_of self.new
            ≡ count_after fault (faults_of self.old)) }
        ensures unopened { IfErr (opened_of self.old) (λ error. (result ≡ Err (fault_of error))
            × (opened_of self.new ≡ Err error)) }
    {
        match load_from(alloc, &mut self.opened) {
            Ok(rows) => Ok(rows),
            Err(fault) => Err(self.counted(fault)),
        }
    }

    fn commit(&mut self, _alloc: Global, row: &Row) -> Result<(), KeepFault>
        ensures counts { faults_of self.old ≤ faults_of self.new }
        ensures steady { OnOk result (faults_of self.new ≡ faults_of self.old) }
        ensures cause { IsErrOf result KeepFault.StoreFailed
            → Rose (faults_of self.old) (faults_of self.new) }
        ensures kept { OnOk result (RowsFollow (keeping_of S.Store self.old) (keeping_of S.Store self.new)
            (put row.now)) }
        ensures same { OnErr result (RowsFollow (keeping_of S.Store self.old) (keeping_of S.Store self.new)
            (λ rows. rows)) }
        ensures clean { IsTrue (keeping_of S.Store self.new).clean
            → IsTrue (keeping_of S.Store self.old).clean }
        ensures tells { OnOk result (TellsStill (keeping_of S.Store self.old) (keeping_of S.Store self.new)
            (put row.now)) }
        ensures stops { LeavesAsBefore (keeping_of S.Store self.new).clean (leaves_of S.Store self.old)
            (leaves_of S.Store self.new) (TheRowsAfter (keeping_of S.Store self.old) (put row.now)) }
        ensures settled { OnOk result (LeavesItsRows (keeping_of S.Store self.new)
            (leaves_of S.Store self.new)) }

        // A fault of the store is counted once, and nothing else is. Where no connection was opened, it answers why.
        ensures counted_fault { IfErr result (λ fault. faults_of self.new
            ≡ count_after fault (faults_of self.old)) }
        ensures unopened { IfErr (opened_of self.old) (λ error. (result ≡ Err (fault_of error))
            × (opened_of self.new ≡ Err error)) }
    {
        match commit_to(&mut self.opened, row) {
            Ok(()) => Ok(()),
            Err(fault) => Err(self.counted(fault)),
        }
    }
}
