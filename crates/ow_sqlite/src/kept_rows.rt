// The rows of the table of kept rows. It is made where it isn't there, and so is the table of old rows.
ghost use Rattle.std.specs.Prelude.{◌≡◌, [], IfOk, OnOk};
ghost use Rattle.sqlite_value.specs.Order.{column};
ghost use Rattle.sqlite_value.specs.declared.value.Value.TheVariants.{Text};
ghost use Rattle.ow_sqlite.specs.Load.{AreTexts, EndsLoad, EndsMaking, PutsRow, SurvivesLoad, rows_after};

use ow_traits::Rows;
use ow_value::Str;
use sqlite::{Alter, Connection, Error, ErrorCode, Row};
use std::alloc::Global;

const CREATE: &str = "CREATE TABLE IF NOT EXISTS kept (key TEXT PRIMARY KEY, text TEXT NOT NULL)";

const CREATE_OLD: &str =
    "CREATE TABLE IF NOT EXISTS old (key TEXT PRIMARY KEY, text TEXT NOT NULL)";

// The order of texts is that of their bytes.
const SELECT: &str = "SELECT key, text FROM kept ORDER BY key";

const OUT_OF_MEMORY: Error = Error::SqliteFailure(ErrorCode::OutOfMemory);

fn text_at(row: &Row, at: usize) -> Result<Str, Error>
    ensures { IfOk result (λ text. column row.now at ≡ Text text) }
{
    let text: String = row.get(at)?;
    match Str::from_string(text) {
        Ok(text) => Ok(text),
        Err(_) => Err(OUT_OF_MEMORY),
    }
}

fn put_row(rows: &mut Rows, row: &Row) -> Result<(), Error>
    ensures { OnOk result (PutsRow row.now rows.old rows.new) }
{
    let key = text_at(row, 0)?;
    let text = text_at(row, 1)?;
    match rows.put(key, text) {
        Ok(()) => Ok(()),
        Err(_) => Err(OUT_OF_MEMORY),
    }
}

fn put_rows(alloc: Global, shown: Vec<Row>) -> Result<Rows, Error>
    ensures texts { OnOk result (AreTexts shown.items) }
    ensures rows { IfOk result (λ rows. rows ≡ rows_after shown.items []) }
{
    let mut rows = Rows::new(alloc);
    for row in shown {
        put_row(&mut rows, &row)?;
    }
    Ok(rows)
}

fn make_tables<S: Alter>(conn: &mut Connection<S>) -> Result<(), Error>
    ensures end { EndsMaking S.Store result conn.old conn.new }
    ensures stop { SurvivesLoad S.Store conn.old conn.new }
{
    conn.execute(CREATE, &[])?;
    conn.execute(CREATE_OLD, &[])?;
    Ok(())
}

pub(crate) fn load_rows<S: Alter>(alloc: Global, conn: &mut Connection<S>) -> Result<Rows, Error>
    ensures end { EndsLoad S.Store result conn.old conn.new }
    ensures stop { SurvivesLoad S.Store conn.old conn.new }
{
    make_tables(conn)?;
    let shown = conn.query_all(SELECT, &[])?;
    put_rows(alloc, shown)
}
