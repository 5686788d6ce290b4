// The items that rows are, and which row is bad.
ghost use Rattle.std.specs.Prelude.{◌≡◌, ◌∷◌, ◌++◌, [], List, Ok, Err, IfOk, IfErr, IfSome, OnOk, MatchResult};
ghost use Rattle.std.specs.List.{All, AllByRecursion};
ghost use Rattle.ow_row_text.specs.Sorted.{rows_of};
ghost use Rattle.ow_row_text.specs.declared.item.Item.{Item};
ghost use Rattle.ow_keep.specs.Allowed.{confirmed, item_at};
ghost use Rattle.ow_keep.specs.Judged.{IsBad, gathered, judged};
ghost use Rattle.ow_keep.specs.Kept.{AreKept, TellsBad};
ghost use Rattle.ow_keep.specs.Known.{IsItem};
ghost use Rattle.ow_keep.specs.Split.{HoldsItems, entries, parts_of, split};

use crate::allowed::is_confirmed;
use crate::item_in::item_from;
use crate::kept::{Kept, split};
use crate::known::known_item;
use crate::refusal::KeepRefusal;
use ow_row_text::Item;
use ow_traits::Rows;
use ow_value::{NoMemory, PlainData, Scratch, Str};
use std::alloc::Global;

/// What the rows hold. The refusal names the first row in the order of keys that is not allowed.
pub fn kept_rows(alloc: Global, rows: &Rows) -> Result<Kept, KeepRefusal>
    ensures kept { IfOk result (λ k. HoldsItems rows.now (parts_of k)) }
    ensures rows { IfOk result (λ k. rows_of (entries (parts_of k)) ≡ rows.now) }
    ensures only { (is : List Item) → AreKept rows.now is → AllByRecursion IsItem is → MatchResult result (λ k. parts_of k ≡ split is) (λ e. e ≡ KeepRefusal.NoMemory) }
    ensures bad { IfErr result (TellsBad rows.now) }
{
    let items = kept_items(alloc, rows)?;
    rows.as_slice();
    split(alloc, items)
}

/// The items of the rows, in the order of keys.
pub fn kept_items(alloc: Global, rows: &Rows) -> Result<Vec<Item>, KeepRefusal>
    ensures kept { IfOk result (λ is. AreKept rows.now is.items) }
    ensures items { IfOk result (λ is. All IsItem is.items) }
    ensures only { (is : List Item) → AreKept rows.now is → AllByRecursion IsItem is → MatchResult result (λ js. js.items ≡ is) (λ e. e ≡ KeepRefusal.NoMemory) }
    ensures bad { IfErr result (TellsBad rows.now) }
{
    judged(alloc, rows)
}

fn judged(alloc: Global, rows: &Rows) -> Result<Vec<Item>, KeepRefusal>
    ensures value { MatchResult result (λ is. judged rows.now ≡ Ok is.items) (IsBad (judged rows.now)) }
    ensures fits { IfOk result (λ is. All IsItem is.items) }
{
    if rows.is_empty() {
        return Ok(Vec::new(alloc));
    }
    let items = gathered(alloc, rows)?;
    if rows.find("version").is_none() {
        return Err(KeepRefusal::BadKept {
            key: Str::of(alloc, "version")?,
        });
    }
    Ok(items)
}

fn gathered(alloc: Global, all: &Rows) -> Result<Vec<Item>, KeepRefusal>
    ensures value { MatchResult result (λ is. gathered all.now all.now ≡ Ok is.items) (IsBad (gathered all.now all.now)) }
    ensures fits { IfOk result (λ is. All IsItem is.items) }
{
    let rows = all.as_slice();
    let mut scratch = Scratch::new(alloc);
    let mut items = Vec::with_capacity(alloc, rows.len())?;
    for row in rows {
        match item_at(alloc, &mut scratch, all, row)? {
            Some(item) => push_item(&mut items, item)?,
            None => {
                return Err(KeepRefusal::BadKept {
                    key: row.0.copy(alloc)?,
                });
            }
        }
    }
    Ok(items)
}

#[tactic(auto, using(crate::proofs::Goods::fit_more))]
fn push_item(items: &mut Vec<Item>, item: Item) -> Result<(), KeepRefusal>
    requires fit { All IsItem items.old.items }
    requires item { IsItem item }
    ensures ok { OnOk result (items.new.items ≡ items.old.items ++ item ∷ []) }
    ensures fit { OnOk result (All IsItem items.new.items) }
    ensures err { IfErr result (λ e. e ≡ KeepRefusal.NoMemory) }
{
    items.push(item)?;
    Ok(())
}

// The item of the row, where it is allowed.
#[tactic(auto, unfolding(crate::specs::Allowed::item_at))]
fn item_at(
    alloc: Global,
    scratch: &mut Scratch,
    all: &Rows,
    row: &(Str, Str),
) -> Result<Option<Item>, NoMemory>
    ensures value { IfOk result (λ o. o ≡ item_at all.now row.now) }
    ensures fits { IfOk result (λ o. IfSome o IsItem) }
{
    match item_from(alloc, scratch, row.0.as_str(), row.1.as_str())? {
        Some(item) => confirmed(alloc, all, row, item),
        None => Ok(None),
    }
}

fn confirmed(
    alloc: Global,
    all: &Rows,
    row: &(Str, Str),
    item: Item,
) -> Result<Option<Item>, NoMemory>
    ensures value { IfOk result (λ o. o ≡ confirmed all.now row.now item) }
    ensures fits { IfOk result (λ o. IfSome o IsItem) }
{
    known_item(&item);
    match is_confirmed(alloc, all, row, &item) {
        Ok(true) => Ok(Some(item)),
        Ok(false) => Ok(None),
        Err(e) => Err(e),
    }
}
