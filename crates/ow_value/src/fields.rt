// The members of an object while they are put together.
ghost use Rattle.std.specs.Prelude.{◌≡◌, [], length, IsTrue, OnOk, OnErr, IfOk, IfErr};
ghost use Rattle.ow_value.specs.Value.{AreParams};
ghost use Rattle.ow_value.specs.Place.{IsPlace, IsGap};
ghost use Rattle.ow_value.specs.Find.{with_pair};
ghost use Rattle.ow_value.specs.View.{view, pair_views, entry_views, members_view};

use crate::members::place;
use crate::memory::NoMemory;
use crate::text::Str;
use crate::val::{Pair, Params, Val};
use crate::walk::known;
use std::alloc::Global;
use std::collections::BTreeMap;
use std::marker::Model;

// A list of fewer members takes names in any order. From this length on, it takes a name only after the last one.
const MOST_LISTED: usize = 128;

/// The members of an object that is being made. Names may come in any order.
#[derive(Drop)]
pub struct Fields {
    alloc: Global,
    members: Members,
}

#[derive(Drop)]
enum Members {
    Listed(Vec<Pair>),
    Mapped(BTreeMap<Str, Val>),
}

impl Model for Fields {
    ghost use Rattle.std.specs.Prelude.{List, ℕ};
    ghost use Rattle.std.specs.Coded.{coded_list, coded×, coded_ℕ};
    ghost use Rattle.ow_value.specs.Value.{V};
    ghost use Rattle.ow_value.specs.Code.{value_code};
    ghost use Rattle.ow_value.specs.Json.{IsObject};
    ghost use Rattle.ow_value.specs.View.{members_view};

    ghost Value = { List (List ℕ × V) };

    ghost coded = { coded_list (coded× (coded_list coded_ℕ) value_code) };

    ghost view = { λ a. members_view a.members };

    ghost invariant = { λ a. IsObject (members_view a.members) };
}

impl Fields {
    /// No member. This takes no memory.
    pub fn new(alloc: Global) -> Fields
        ensures { result ≡ [] }
    {
        Fields {
            alloc,
            members: Members::Listed(Vec::new(alloc)),
        }
    }

    /// Gives the name this value, in place of the one that it has, if any.
    pub fn set(&mut self, name: Str, value: Val) -> Result<(), NoMemory>
        ensures ok { OnOk result (self.new ≡ with_pair self.old name (view value)) }
        ensures err { OnErr result (self.new ≡ self.old) }
    {
        known(&value);
        self.members.make_room(self.alloc, name.as_str())?;
        self.members.put(name, value)?;
        Ok(())
    }

    /// The object, which is shared from now on.
    pub fn into_params(self) -> Result<Params, NoMemory>
        ensures { IfOk result (λ r. r ≡ self) }
    {
        let Fields { alloc, members } = self;
        match members {
            Members::Listed(mut pairs) => {
                pairs.shrink_to_fit();
                Params::of_pairs(pairs)
            }
            Members::Mapped(entries) => Params::of_pairs(pairs_of(alloc, entries)?),
        }
    }
}

impl Members {
    // Goes over to a tree where a list would be too long for the name.
    fn make_room(&mut self, alloc: Global, name: &str) -> Result<(), NoMemory>
        requires { AreParams (members_view self.old) }
        ensures { members_view self.new ≡ members_view self.old }
    {
        if let Members::Listed(pairs) = self
            && pairs.len() >= MOST_LISTED
            && !comes_last(pairs, name)
        {
            let entries = entries_of(alloc, pairs)?;
            *self = Members::Mapped(entries);
        }
        Ok(())
    }

    fn put(&mut self, name: Str, value: Val) -> Result<(), NoMemory>
        requires { AreParams (members_view self.old) }
        ensures ok { OnOk result (members_view self.new ≡ with_pair (members_view self.old) name (view value)) }
        ensures err { OnErr result (members_view self.new ≡ members_view self.old) }
    {
        match self {
            Members::Listed(pairs) => put_pair(pairs, name, value),
            Members::Mapped(entries) => put_entry(entries, name, value),
        }
    }
}

fn put_entry(entries: &mut BTreeMap<Str, Val>, name: Str, value: Val) -> Result<(), NoMemory>
    ensures ok { OnOk result (entry_views entries.new.entries ≡ with_pair (entry_views entries.old.entries) name (view value)) }
    ensures err { OnErr result (entries.new.entries ≡ entries.old.entries) }
{
    entries.insert(name, value)?;
    Ok(())
}

fn put_pair(pairs: &mut Vec<Pair>, name: Str, value: Val) -> Result<(), NoMemory>
    requires { AreParams (pair_views pairs.old.items) }
    ensures ok { OnOk result (pair_views pairs.new.items ≡ with_pair (pair_views pairs.old.items) name (view value)) }
    ensures err { OnErr result (pairs.new.items ≡ pairs.old.items) }
{
    match place_from_end(pairs, name.as_str()) {
        Ok(i) => pairs[i].value = value,
        Err(i) => pairs.insert(i, Pair { name, value })?,
    }
    Ok(())
}

// As `place`, which it calls only where the name doesn't come last.
fn place_from_end(pairs: &[Pair], name: &str) -> Result<usize, usize>
    requires { AreParams (pair_views pairs.now) }
    ensures ok { IfOk result (λ i. IsPlace pairs.now name.now i) }
    ensures err { IfErr result (λ i. IsGap pairs.now name.now i) }
{
    if comes_last(pairs, name) {
        Err(pairs.len())
    } else {
        place(pairs, name)
    }
}

// Whether the name comes after all names in the list.
fn comes_last(pairs: &[Pair], name: &str) -> bool
    requires { AreParams (pair_views pairs.now) }
    ensures { IsTrue result → IsGap pairs.now name.now (length pairs.now) }
{
    pairs.is_empty() || pairs[pairs.len() - 1].name.compare(name).is_lt()
}

fn entries_of(alloc: Global, pairs: &[Pair]) -> Result<BTreeMap<Str, Val>, NoMemory>
    requires { AreParams (pair_views pairs.now) }
    ensures { IfOk result (λ r. entry_views r.entries ≡ pair_views pairs.now) }
{
    let mut entries = BTreeMap::new(alloc);
    for pair in pairs {
        let again = pair.again()?;
        put_entry(&mut entries, again.name, again.value)?;
    }
    Ok(entries)
}

fn pairs_of(alloc: Global, entries: BTreeMap<Str, Val>) -> Result<Vec<Pair>, NoMemory>
    ensures { IfOk result (λ r. pair_views r.items ≡ entry_views entries.entries) }
{
    let mut pairs = Vec::with_capacity(alloc, entries.len())?;
    for (name, value) in entries {
        pairs.push(Pair { name, value })?;
    }
    Ok(pairs)
}
