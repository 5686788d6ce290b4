// Keepers over a database in memory.
use ow_sqlite::SqliteKeeper;
use ow_traits::{Change, Changes, Keeper, KeeperError, Rows};
use ow_value::{NoMemory, Str};
use sqlite::{Connection, Error, ErrorCode, MemStore};
use std::alloc::{AllocError, Global};
use std::test::Fail;

type Memory = Connection<MemStore>;

fn put(alloc: Global, key: &str, text: &str) -> Result<Change, NoMemory> {
    Ok(Change::Put(Str::of(alloc, key)?, Str::of(alloc, text)?))
}

fn drop_of(alloc: Global, key: &str) -> Result<Change, NoMemory> {
    Ok(Change::Drop(Str::of(alloc, key)?))
}

fn retire(alloc: Global, key: &str, text: &str) -> Result<Change, NoMemory> {
    Ok(Change::Retire(Str::of(alloc, key)?, Str::of(alloc, text)?))
}

// No text is a drop, a text that begins with `old` retires its key, and any other text is put.
fn change(alloc: Global, key: &str, text: &str) -> Result<Change, NoMemory> {
    if text.is_empty() {
        drop_of(alloc, key)
    } else if text.starts_with("old") {
        retire(alloc, key, text)
    } else {
        put(alloc, key, text)
    }
}

fn changes(alloc: Global, rows: &[(&str, &str)]) -> Result<Changes, NoMemory> {
    let mut changes = Vec::new(alloc);
    for (key, text) in rows {
        changes.push(change(alloc, key, text)?)?;
    }
    Changes::from_vec(changes)
}

// The rows as a text.
fn shown(alloc: Global, rows: &Rows) -> Result<String, AllocError> {
    let mut text = String::new(alloc);
    for (key, value) in rows.as_slice() {
        text.push_str(key.as_str())?;
        text.push_str(value.as_str())?;
    }
    Ok(text)
}

// These have no clause, so that the proof of a test does not carry the state of each call.
fn run(conn: &mut Memory, sql: &str) -> Result<usize, Error> {
    conn.execute(sql, &[])
}

fn loaded(alloc: Global, keeper: &mut SqliteKeeper<MemStore>) -> Result<Rows, KeeperError> {
    keeper.load(alloc)
}

// What is loaded, as a text.
fn kept(alloc: Global, keeper: &mut SqliteKeeper<MemStore>) -> Result<String, Fail> {
    let rows = loaded(alloc, keeper)?;
    Ok(shown(alloc, &rows)?)
}

fn commit(
    alloc: Global,
    keeper: &mut SqliteKeeper<MemStore>,
    rows: &[(&str, &str)],
) -> Result<(), KeeperError> {
    let changes = changes(alloc, rows)?;
    keeper.commit(alloc, &changes)
}

const COMMITS: [&[(&str, &str)]; 3] = [
    &[("b", "1"), ("a", "2")],
    &[("b", "3"), ("c", "4")],
    &[("c", ""), ("é", "5"), ("d", "")],
];

fn commit_all(alloc: Global, keeper: &mut SqliteKeeper<MemStore>) -> Result<(), KeeperError> {
    loaded(alloc, keeper)?;
    for rows in COMMITS.iter() {
        commit(alloc, keeper, rows)?;
    }
    Ok(())
}

// Makes three commits over a new database.
fn three_commits(alloc: Global) -> Result<Memory, Fail> {
    let mut keeper = SqliteKeeper::over(Connection::open_in_memory(alloc)?);
    commit_all(alloc, &mut keeper)?;
    Ok(keeper.into_connection()?)
}

#[test]
fn loads_what_three_commits_left(rt: HostRuntime) -> Result<(), Fail> {
    let alloc = rt.alloc();
    let mut keeper = SqliteKeeper::over(three_commits(alloc)?);
    assert_eq!(rt; kept(alloc, &mut keeper)?.as_str(), "a2b3é5");
    assert_eq!(rt; keeper.faults(), 0);
    Ok(())
}

// A keeper over a table with a rule of its own.
fn with_rule(alloc: Global) -> Result<SqliteKeeper<MemStore>, Fail> {
    let mut conn = Connection::open_in_memory(alloc)?;
    run(
        &mut conn,
        "CREATE TABLE kept (key TEXT PRIMARY KEY, text TEXT NOT NULL CHECK (text <> 'bad'))",
    )?;
    Ok(SqliteKeeper::over(conn))
}

// The text of the second row of a commit, the result of the commit, how many faults there are then, and the rows.
const RULED: [(&str, Result<(), KeeperError>, u64, &str); 3] = [
    ("bad", Err(KeeperError::Failed), 1, ""),
    ("good", Ok(()), 1, "a1bgood"),
    ("bad", Err(KeeperError::Failed), 2, "a1bgood"),
];

// The second change breaks a rule of the table.
#[test]
fn a_commit_that_fails_changes_nothing_and_counts(rt: HostRuntime) -> Result<(), Fail> {
    let alloc = rt.alloc();
    let mut keeper = with_rule(alloc)?;
    for (text, committed, faults, rows) in RULED.iter() {
        assert_eq!(rt;
            commit(alloc, &mut keeper, &[("a", "1"), ("b", *text)]),
            *committed
        );
        assert_eq!(rt; kept(alloc, &mut keeper)?.as_str(), *rows);
        assert_eq!(rt; keeper.faults(), *faults);
    }
    Ok(())
}

// The changes of a commit, its result, and the rows. The last change of the second commit breaks a rule of the table.
const RETIRED: [(&[(&str, &str)], Result<(), KeeperError>, &str); 4] = [
    (&[("a", "1"), ("b", "2")], Ok(()), "a1b2"),
    (
        &[("a", "old 3"), ("d", "old 4"), ("b", "bad")],
        Err(KeeperError::Failed),
        "a1b2",
    ),
    (&[("a", "old 5"), ("c", "old 6")], Ok(()), "b2"),
    (&[("a", "7"), ("a", "old 8")], Ok(()), "b2"),
];

// Whether each commit has this result, and leaves these rows.
fn retires(alloc: Global, keeper: &mut SqliteKeeper<MemStore>) -> Result<bool, Fail> {
    loaded(alloc, keeper)?;
    for (rows, committed, left) in RETIRED.iter() {
        let result = commit(alloc, keeper, rows);
        let after = kept(alloc, keeper)?;
        if result != *committed || after.as_str() != *left {
            return Ok(false);
        }
    }
    Ok(true)
}

// The old rows are the two that were retired last: how many rows each statement takes out.
const COUNTS: [(&str, usize); 2] = [
    (
        "DELETE FROM old WHERE key || text IN ('aold 8', 'cold 6')",
        2,
    ),
    ("DELETE FROM old", 0),
];

#[test]
fn a_commit_retires_all_its_rows_or_none(rt: HostRuntime) -> Result<(), Fail> {
    let alloc = rt.alloc();
    let mut keeper = with_rule(alloc)?;
    assert!(rt; retires(alloc, &mut keeper)?);
    let mut conn = keeper.into_connection()?;
    for (sql, count) in COUNTS.iter() {
        assert_eq!(rt; run(&mut conn, *sql)?, *count);
    }
    Ok(())
}

// Whether a load fails, and is counted as the first fault.
fn is_counted(alloc: Global, keeper: &mut SqliteKeeper<MemStore>) -> bool {
    loaded(alloc, keeper).is_err_and(|e| e == KeeperError::Failed) && keeper.faults() == 1
}

// A table whose texts aren't texts.
#[test]
fn a_load_that_fails_counts(rt: HostRuntime) -> Result<(), Fail> {
    let alloc = rt.alloc();
    let mut conn = Connection::open_in_memory(alloc)?;
    run(&mut conn, "CREATE TABLE kept (key, text)")?;
    run(&mut conn, "INSERT INTO kept VALUES (NULL, 1)")?;
    let mut keeper = SqliteKeeper::over(conn);
    assert!(rt; is_counted(alloc, &mut keeper));
    Ok(())
}

// A database that could not be opened.
#[test]
fn a_load_of_nothing_counts(rt: HostRuntime) -> Result<(), Fail> {
    let mut keeper = SqliteKeeper::unopened(Error::SqliteFailure(ErrorCode::CannotOpen));
    assert!(rt; is_counted(rt.alloc(), &mut keeper));
    Ok(())
}
