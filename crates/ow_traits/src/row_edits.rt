// Edits of a Vec of rows, which stays in the order of its keys.
ghost use Rattle.std.specs.Prelude.{◌≡◌, ◌≤◌, ◌<◌, ◌+◌, length, vec_len, vec_capacity, IsOk, IfOk, IfErr, OnOk, OnErr};
ghost use Rattle.std.specs.List.{AllWithin, HoldsAt};
ghost use Rattle.std.specs.List.Sorted.{IsPartitionPoint};
ghost use Rattle.std.specs.declared.cmp.Ordering.TheVariants.{Less, Equal, Greater};
ghost use Rattle.ow_value.specs.Value.{text_cmp};
ghost use Rattle.ow_traits.specs.Changes.{after_change, changed, old_after, old_after_change};
ghost use Rattle.ow_traits.specs.Rows.{AreRows, with_row, without};

use crate::Change;
use ow_value::{NoMemory, Str};
use std::cmp::Ordering;

// The place of the key, or where it would be inserted. The search starts near the end, since new keys are mostly among the last.
pub(crate) fn place(rows: &[(Str, Str)], key: &str) -> Result<usize, usize>
    requires { AreRows rows.now }
    ensures ok { IfOk result (λ i. (i < length rows.now) × HoldsAt (λ r. text_cmp r.0 key.now ≡ Equal) rows.now i) }
    ensures err { IfErr result (λ i. (i ≤ length rows.now) × IsPartitionPoint (λ r. text_cmp r.0 key.now ≡ Less) (λ r. text_cmp r.0 key.now ≡ Greater) rows.now i) }
{
    let below = rows_below(rows, key, 8);
    match rows[below..].binary_search_by(|row| row.0.compare(key)) {
        Ok(i) => Ok(below + i),
        Err(i) => Err(below + i),
    }
}

// A number of first rows whose keys are all below the key: all but the last `step` rows, or 0. The step grows by eight times.
fn rows_below(rows: &[(Str, Str)], key: &str, step: usize) -> usize
    requires sorted { AreRows rows.now }
    requires step { 0 < step }
    ensures bound { result ≤ length rows.now }
    ensures below { AllWithin (λ r. text_cmp r.0 key.now ≡ Less) rows.now 0 result }
{
    if step >= rows.len() {
        return 0;
    }
    let count = rows.len() - step;
    if rows[count - 1].0.compare(key) == Ordering::Less {
        return count;
    }
    rows_below(rows, key, step.saturating_mul(8))
}

pub(crate) fn put_row(rows: &mut Vec<(Str, Str)>, key: Str, text: Str) -> Result<(), NoMemory>
    requires { AreRows rows.old.items }
    ensures ok { OnOk result (rows.new.items ≡ with_row rows.old.items key text) }
    ensures err { OnErr result (rows.new.items ≡ rows.old.items) }
    ensures rows { AreRows rows.new.items }
    ensures succeeds { vec_len rows.old < vec_capacity rows.old → IsOk result }
    ensures len { vec_len rows.new ≤ vec_len rows.old + 1 }
    ensures capacity { vec_capacity rows.old ≤ vec_capacity rows.new }
{
    match place(rows, key.as_str()) {
        Ok(i) => rows[i].1 = text,
        Err(i) => rows.insert(i, (key, text))?,
    }
    Ok(())
}

pub(crate) fn drop_row(rows: &mut Vec<(Str, Str)>, key: &str)
    requires { AreRows rows.old.items }
    ensures items { rows.new.items ≡ without key.now rows.old.items }
    ensures rows { AreRows rows.new.items }
    ensures len { vec_len rows.new ≤ vec_len rows.old }
    ensures capacity { vec_capacity rows.new ≡ vec_capacity rows.old }
{
    match place(rows, key) {
        Ok(i) => {
            let _ = rows.remove(i);
        }
        Err(_) => {}
    }
}

pub(crate) fn change_row(rows: &mut Vec<(Str, Str)>, old_rows: &mut Vec<(Str, Str)>, change: Change)
    requires sorted { AreRows rows.old.items }
    requires old_sorted { AreRows old_rows.old.items }
    requires room { vec_len rows.old < vec_capacity rows.old }
    requires old_room { vec_len old_rows.old < vec_capacity old_rows.old }
    ensures items { rows.new.items ≡ after_change change rows.old.items }
    ensures old_items { old_rows.new.items ≡ old_after_change change old_rows.old.items }
    ensures rows { AreRows rows.new.items }
    ensures old_rows { AreRows old_rows.new.items }
    ensures len { vec_len rows.new ≤ vec_len rows.old + 1 }
    ensures old_len { vec_len old_rows.new ≤ vec_len old_rows.old + 1 }
    ensures capacity { vec_capacity rows.old ≤ vec_capacity rows.new }
    ensures old_capacity { vec_capacity old_rows.old ≤ vec_capacity old_rows.new }
{
    match change {
        Change::Put(key, text) => put_row(rows, key, text).unwrap(),
        Change::Drop(key) => drop_row(rows, key.as_str()),
        Change::Retire(key, text) => {
            drop_row(rows, key.as_str());
            put_row(old_rows, key, text).unwrap();
        }
    }
}

// Makes the changes in their order. There is room for a row and for an old row of each.
pub(crate) fn change_rows(
    rows: &mut Vec<(Str, Str)>,
    old_rows: &mut Vec<(Str, Str)>,
    changes: Vec<Change>,
)
    requires sorted { AreRows rows.old.items }
    requires old_sorted { AreRows old_rows.old.items }
    requires room { vec_len rows.old + length changes.items ≤ vec_capacity rows.old }
    requires old_room { vec_len old_rows.old + length changes.items ≤ vec_capacity old_rows.old }
    ensures items { rows.new.items ≡ changed changes.items rows.old.items }
    ensures old_items { old_rows.new.items ≡ old_after changes.items old_rows.old.items }
    ensures rows { AreRows rows.new.items }
    ensures old_rows { AreRows old_rows.new.items }
{
    for change in changes {
        change_row(rows, old_rows, change);
    }
}
