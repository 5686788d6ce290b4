// A keeper over a file.
ghost use Rattle.std.specs.Prelude.{◌≡◌, IsTrue, None, Err, IfOk, IfErr, OnOk};
ghost use Rattle.ow_traits.specs.Keeper.{Commits, KeepsCause, Loads, Retires};
ghost use Rattle.ow_sqlite.specs.Commit.{EndsCommit, SurvivesCommit};
ghost use Rattle.ow_sqlite.specs.Faults.{faults_after, keeper_error};
ghost use Rattle.ow_sqlite.specs.Load.{EndsLoad};
ghost use Rattle.ow_sqlite.specs.Through.{Through};
ghost use Rattle.sqlite.specs.Files.{IsOpened, file_state, over_files};
ghost use Rattle.sqlite.specs.Opening.{is_open_error};
ghost use Rattle.sqlite.specs.State.{HasCleanDisk};

use crate::sqlite_keeper::SqliteKeeper;
use ow_traits::{Changes, Keeper, KeeperError, Rows};
use sqlite::{Connection, Error, File, FileStore};
use std::alloc::Global;

/// Keeps rows and old rows in a SQLite file, which it alone has open. Its log is a file beside it, with the file's name and `-wal`.
pub struct FileKeeper {
    inner: SqliteKeeper<FileStore<File>>,
}

// Written out, so that callers don't prove again how each part is dropped.
impl Drop for FileKeeper {
    fn drop(self) {
        let FileKeeper { inner: _inner } = self;
    }
}

impl FileKeeper {
    /// A keeper over the file at this path, with no fault yet. A file that can't be opened gives a keeper whose loads and commits fail.
    pub fn open(rt: &HostRuntime, path: &str) -> FileKeeper
        ensures opened { IfOk result.inner.conn (λ c. HasCleanDisk (file_state c) → IsOpened c) }
        ensures unopened { IfErr result.inner.conn (λ e. IsTrue (is_open_error e)) }
        ensures faults { result.inner.faults ≡ 0 }
    {
        let conn = Connection::open(rt, path);
        FileKeeper {
            inner: SqliteKeeper { conn, faults: 0 },
        }
    }

    /// Copies the log into the file and closes both. Without it the next open reads the log.
    pub fn close(self) -> Result<(), Error> {
        let FileKeeper { inner } = self;
        let SqliteKeeper { conn, .. } = inner;
        conn?.close()
    }
}

impl Keeper for FileKeeper {
    ghost telling = { λ k. record { rows = None; old_rows = None; faults = k.inner.faults; commits = None } };

    fn faults(&self) -> u64 {
        self.inner.faults
    }

    fn load(&mut self, alloc: Global) -> Result<Rows, KeeperError>
        ensures told { Loads None None result }
        ensures counted { OnOk result (self.new.inner.faults ≡ self.old.inner.faults) }
        ensures failed { IfErr result (λ e. self.new.inner.faults ≡ faults_after e self.old.inner.faults) }
        ensures cause { KeepsCause self.old.inner.faults self.new.inner.faults result }
        ensures database { Through (EndsLoad over_files result) self.old.inner.conn self.new.inner.conn }
        ensures unopened { IfErr self.old.inner.conn (λ e. result ≡ Err (keeper_error e)) }
    {
        self.inner.load(alloc)
    }

    fn commit(&mut self, alloc: Global, changes: &Changes) -> Result<(), KeeperError>
        ensures told { Commits None None changes.now result }
        ensures old_rows { Retires None None changes.now result }
        ensures counted { OnOk result (self.new.inner.faults ≡ self.old.inner.faults) }
        ensures failed { IfErr result (λ e. self.new.inner.faults ≡ faults_after e self.old.inner.faults) }
        ensures cause { KeepsCause self.old.inner.faults self.new.inner.faults result }
        ensures database { Through (EndsCommit over_files changes.now result) self.old.inner.conn self.new.inner.conn }
        ensures stop { Through (SurvivesCommit over_files changes.now) self.old.inner.conn self.new.inner.conn }
        ensures unopened { IfErr self.old.inner.conn (λ e. result ≡ Err (keeper_error e)) }
    {
        self.inner.commit(alloc, changes)
    }
}
