// Changes of rows, as one transaction of a database.
ghost use Rattle.std.specs.Prelude.{◌≡◌, IsTrue, OnOk};
ghost use Rattle.sqlite.specs.State.{HasCleanDisk, KeepsCommit, Survives};
ghost use Rattle.sqlite.specs.Held.{state};
ghost use Rattle.sqlite.specs.Values.{bound};
ghost use Rattle.ow_sqlite.specs.Commit.{EndsCommit, Makes, SurvivesCommit};
ghost use Rattle.ow_sqlite.specs.Statements.{Executed};

use ow_traits::{Change, Changes};
use sqlite::types::ValueRef;
use sqlite::{Alter, Connection, Error, ErrorCode, Transaction, params};

const PUT: &str =
    "INSERT INTO kept (key, text) VALUES (?1, ?2) ON CONFLICT (key) DO UPDATE SET text = excluded.text";

const DROP: &str = "DELETE FROM kept WHERE key = ?1";

const PUT_OLD: &str =
    "INSERT INTO old (key, text) VALUES (?1, ?2) ON CONFLICT (key) DO UPDATE SET text = excluded.text";

// A transaction that is open already isn't ours.
const OPEN_ALREADY: Error = Error::SqliteFailure(ErrorCode::TransactionState);

// Executes one statement.
fn execute<S: Alter>(
    tx: &mut Transaction<'_, S>,
    sql: &str,
    params: &[ValueRef<'_>],
) -> Result<(), Error>
    ensures made { HasCleanDisk (state S.Store tx.new.conn.now) → IsTrue (state S.Store tx.old.conn.now).in_transaction
        → OnOk result (Executed S.Store sql.now (bound params.now) tx.old.conn.now tx.new.conn.now) }
    ensures inside { HasCleanDisk (state S.Store tx.new.conn.now) → IsTrue (state S.Store tx.old.conn.now).in_transaction
        → OnOk result (IsTrue (state S.Store tx.new.conn.now).in_transaction) }
    ensures same_reference { tx.new.conn.ghost_name ≡ tx.old.conn.ghost_name }
    ensures kept { HasCleanDisk (state S.Store tx.new.conn.now) → KeepsCommit (state S.Store tx.old.conn.now) (state S.Store tx.new.conn.now) }
    ensures survives { Survives (state S.Store tx.old.conn.now) (state S.Store tx.new.conn.now) (λ _. ⊥) }
{
    tx.execute(sql, params)?;
    Ok(())
}

fn make<S: Alter>(tx: &mut Transaction<'_, S>, change: &Change) -> Result<(), Error>
    ensures made { HasCleanDisk (state S.Store tx.new.conn.now) → IsTrue (state S.Store tx.old.conn.now).in_transaction
        → OnOk result (Makes S.Store change.now tx.old.conn.now tx.new.conn.now) }
    ensures inside { HasCleanDisk (state S.Store tx.new.conn.now) → IsTrue (state S.Store tx.old.conn.now).in_transaction
        → OnOk result (IsTrue (state S.Store tx.new.conn.now).in_transaction) }
    ensures same_reference { tx.new.conn.ghost_name ≡ tx.old.conn.ghost_name }
    ensures kept { HasCleanDisk (state S.Store tx.new.conn.now) → KeepsCommit (state S.Store tx.old.conn.now) (state S.Store tx.new.conn.now) }
    ensures survives { Survives (state S.Store tx.old.conn.now) (state S.Store tx.new.conn.now) (λ _. ⊥) }
{
    match change {
        Change::Put(key, text) => execute(tx, PUT, params![key.as_str(), text.as_str()]),
        Change::Drop(key) => execute(tx, DROP, params![key.as_str()]),
        Change::Retire(key, text) => {
            execute(tx, DROP, params![key.as_str()])?;
            execute(tx, PUT_OLD, params![key.as_str(), text.as_str()])
        }
    }
}

// All the changes in their order, or none.
pub(crate) fn commit_changes<S: Alter>(
    conn: &mut Connection<S>,
    changes: &Changes,
) -> Result<(), Error>
    ensures end { EndsCommit S.Store changes.now result conn.old conn.new }
    ensures stop { SurvivesCommit S.Store changes.now conn.old conn.new }
{
    if !conn.is_autocommit() {
        return Err(OPEN_ALREADY);
    }
    let mut tx = conn.transaction();
    for change in changes.as_slice() {
        make(&mut tx, change)?;
    }
    tx.commit()
}
