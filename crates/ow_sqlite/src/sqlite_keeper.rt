// A keeper over a connection to a database.
ghost use Rattle.std.specs.Prelude.{◌≡◌, ◌≤◌, None, Ok, Err, IfErr, OnOk};
ghost use Rattle.ow_traits.specs.Keeper.{Commits, KeepsCause, Loads, Retires};
ghost use Rattle.ow_traits.specs.Streams.{Rose};
ghost use Rattle.ow_sqlite.specs.Commit.{EndsCommit, SurvivesCommit};
ghost use Rattle.ow_sqlite.specs.Faults.{faults_after, keeper_error};
ghost use Rattle.ow_sqlite.specs.Load.{EndsLoad, SurvivesLoad};
ghost use Rattle.ow_sqlite.specs.Through.{Through};

use crate::kept_changes::commit_changes;
use crate::kept_rows::load_rows;
use ow_traits::{Changes, Keeper, KeeperError, Rows};
use sqlite::{Alter, Connection, Error, ErrorCode};
use std::alloc::Global;

/// Keeps rows in the table `kept` of a database, and old rows in its table `old`. A commit is one transaction.
#[derive(Drop)]
pub struct SqliteKeeper<S: Alter> {
    pub(crate) conn: Result<Connection<S>, Error>,
    pub(crate) faults: u64,
}

impl<S: Alter> SqliteKeeper<S> {
    /// A keeper that owns the connection, with no fault yet. The tables are made by the first load.
    pub fn over(conn: Connection<S>) -> SqliteKeeper<S>
        ensures conn { result.conn ≡ Ok conn }
        ensures faults { result.faults ≡ 0 }
    {
        SqliteKeeper {
            conn: Ok(conn),
            faults: 0,
        }
    }

    /// A keeper in place of one whose database could not be opened, with no fault yet. Each load and each commit ends with this error.
    pub fn unopened(error: Error) -> SqliteKeeper<S>
        ensures conn { result.conn ≡ Err error }
        ensures faults { result.faults ≡ 0 }
    {
        SqliteKeeper {
            conn: Err(error),
            faults: 0,
        }
    }

    /// The connection, or why there is none.
    pub fn into_connection(self) -> Result<Connection<S>, Error>
        ensures { result ≡ self.conn }
    {
        self.conn
    }

    // The kept rows, before a failure is counted.
    fn read(&mut self, alloc: Global) -> Result<Rows, Error>
        ensures database { Through (EndsLoad S.Store result) self.old.conn self.new.conn }
        ensures stop { Through (SurvivesLoad S.Store) self.old.conn self.new.conn }
        ensures unopened { IfErr self.old.conn (λ e. result ≡ Err e) }
        ensures faults { self.new.faults ≡ self.old.faults }
    {
        match &mut self.conn {
            Ok(conn) => load_rows(alloc, conn),
            Err(error) => Err(*error),
        }
    }

    // A commit, before a failure is counted.
    fn write(&mut self, changes: &Changes) -> Result<(), Error>
        ensures database { Through (EndsCommit S.Store changes.now result) self.old.conn self.new.conn }
        ensures stop { Through (SurvivesCommit S.Store changes.now) self.old.conn self.new.conn }
        ensures unopened { IfErr self.old.conn (λ e. result ≡ Err e) }
        ensures faults { self.new.faults ≡ self.old.faults }
    {
        match &mut self.conn {
            Ok(conn) => commit_changes(conn, changes),
            Err(error) => Err(*error),
        }
    }

    fn blame(&mut self, error: Error) -> KeeperError
        ensures error { result ≡ keeper_error error }
        ensures counted { self.new.faults ≡ faults_after result self.old.faults }
        ensures faults_grow { self.old.faults ≤ self.new.faults }
        ensures rose { result ≡ KeeperError.Failed → Rose self.old.faults self.new.faults }
        ensures conn { self.new.conn ≡ self.old.conn }
    {
        match error {
            Error::SqliteFailure(ErrorCode::OutOfMemory) => KeeperError::NoMemory,
            _ => {
                self.faults = self.faults.saturating_add(1);
                KeeperError::Failed
            }
        }
    }
}

impl<S: Alter> Keeper for SqliteKeeper<S> {
    ghost telling = { λ k. record { rows = None; old_rows = None; faults = k.faults; commits = None } };

    fn faults(&self) -> u64 {
        self.faults
    }

    fn load(&mut self, alloc: Global) -> Result<Rows, KeeperError>
        ensures told { Loads None None result }
        ensures counted { OnOk result (self.new.faults ≡ self.old.faults) }
        ensures failed { IfErr result (λ e. self.new.faults ≡ faults_after e self.old.faults) }
        ensures cause { KeepsCause self.old.faults self.new.faults result }
        ensures database { Through (EndsLoad S.Store result) self.old.conn self.new.conn }
        ensures stop { Through (SurvivesLoad S.Store) self.old.conn self.new.conn }
        ensures unopened { IfErr self.old.conn (λ e. result ≡ Err (keeper_error e)) }
    {
        match self.read(alloc) {
            Ok(rows) => Ok(rows),
            Err(error) => Err(self.blame(error)),
        }
    }

    fn commit(&mut self, _alloc: Global, changes: &Changes) -> Result<(), KeeperError>
        ensures told { Commits None None changes.now result }
        ensures old_rows { Retires None None changes.now result }
        ensures counted { OnOk result (self.new.faults ≡ self.old.faults) }
        ensures failed { IfErr result (λ e. self.new.faults ≡ faults_after e self.old.faults) }
        ensures cause { KeepsCause self.old.faults self.new.faults result }
        ensures database { Through (EndsCommit S.Store changes.now result) self.old.conn self.new.conn }
        ensures stop { Through (SurvivesCommit S.Store changes.now) self.old.conn self.new.conn }
        ensures unopened { IfErr self.old.conn (λ e. result ≡ Err (keeper_error e)) }
    {
        match self.write(changes) {
            Ok(()) => Ok(()),
            Err(error) => Err(self.blame(error)),
        }
    }
}
