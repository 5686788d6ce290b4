// The records of the activations that have ended.
ghost use Rattle.std.specs.Prelude.{◌≡◌, ◌≤◌, ◌-◌, [], ◌∷◌, ◌++◌, length, take, drop, filter, find, None, Some, IfOk, OnOk, MatchResult, List, vec_len};
ghost use Rattle.std.specs.Option.{option_copied};
ghost use Rattle.std.specs.Vec.{vec_capacity};
ghost use Rattle.ow_records.specs.declared.record.Record.{Record};
ghost use Rattle.ow_records.specs.Order.{Rises, namespace_key};
ghost use Rattle.ow_records.specs.Records.{id_key, is_due, is_of_id, is_retained, listing, put_by, sorted_by};

use crate::listing::last_shown;
use crate::order::{first_of, part, place_by_id, place_by_namespace};
use crate::retiring::{due_copies, least_end, retain_later};
use crate::{Id, ReadyRecord, Record, RecordRefusal};
use ow_names::EntityName;
use ow_value::{NoMemory, Shared, Vals};
use std::alloc::Global;
use std::marker::Model;

/// The records, in the order in which their activations ended.
#[derive(Drop)]
pub struct Records {
    by_end: Vec<Shared<Record>>,
    // The same records, by their ids.
    by_id: Vec<Shared<Record>>,
    // The same records, by their namespaces, and then by their ids.
    by_namespace: Vec<Shared<Record>>,
    // No record ended before this moment, so that none is due before it, and none has to be read.
    least_end: u64,
}

impl Model for Records {
    ghost use Rattle.std.specs.Prelude.{◌-◌, min, vec_len};
    ghost use Rattle.std.specs.Vec.{vec_capacity};
    ghost use Rattle.std.specs.Coded.{codes};
    ghost use Rattle.ow_value.specs.Code.{value_code};
    ghost use Rattle.ow_records.specs.Order.{AreKept};
    ghost use Rattle.ow_records.specs.Records.{RecordsView};

    ghost Value = { RecordsView };

    ghost coded = { Prim.hlevel (codes, value_code) };

    ghost view = { λ a. record {
      items = a.by_end.items;
      room = min (min (vec_capacity a.by_end - vec_len a.by_end) (vec_capacity a.by_id - vec_len a.by_id)) (vec_capacity a.by_namespace - vec_len a.by_namespace);
    } };

    ghost invariant = { λ a. AreKept a.by_end.items a.by_id.items a.by_namespace.items a.least_end };
}

impl Records {
    /// No record. This takes no memory.
    pub fn new(alloc: Global) -> Records
        ensures { result.items ≡ [] }
    {
        Records {
            by_end: Vec::new(alloc),
            by_id: Vec::new(alloc),
            by_namespace: Vec::new(alloc),
            least_end: u64::MAX,
        }
    }

    /// Makes room for one more record.
    pub fn reserve(&mut self) -> Result<(), NoMemory>
        ensures items { self.new.items ≡ self.old.items }
        ensures room { OnOk result (1 ≤ self.new.room) }
    {
        self.by_end.reserve(1)?;
        self.by_id.reserve(1)?;
        self.by_namespace.reserve(1)?;
        Ok(())
    }

    /// Appends the record. This takes no memory.
    pub fn add(&mut self, ready: ReadyRecord)
        requires { 1 ≤ self.old.room }
        ensures { self.new.items ≡ self.old.items ++ ready ∷ [] }
    {
        let ReadyRecord {
            by_end,
            by_id,
            by_namespace,
        } = ready;
        self.least_end = self.least_end.min(by_end.get().span.end());
        put_by_id(&mut self.by_id, by_id);
        put_by_namespace(&mut self.by_namespace, by_namespace);
        let last = self.by_end.len();
        put_at(&mut self.by_end, last, by_end);
    }

    /// How many records.
    pub fn len(&self) -> usize
        ensures { result ≡ length self.now.items }
    {
        self.by_end.len()
    }

    /// The records, lent, in the order in which their activations ended.
    pub fn items(&self) -> &[Shared<Record>]
        ensures { result.now ≡ self.now.items }
    {
        &self.by_end
    }

    /// Removes all but the first `count` records. This takes no memory.
    pub fn cut(&mut self, count: usize)
        ensures { self.new.items ≡ take count self.old.items }
    {
        while self.len() > count {
            self.take_last();
        }
    }

    /// The record of the activation, the first one where the id occurs twice.
    pub fn get(&self, id: &Id) -> Result<&Record, RecordRefusal>
        ensures { MatchResult result (λ r. find (is_of_id id.now) self.now.items ≡ Some r.now)
            (λ e. (find (is_of_id id.now) self.now.items ≡ None) × (e ≡ RecordRefusal.NotFound)) }
    {
        self.found(id).ok_or(RecordRefusal::NotFound)
    }

    /// What lists show of the records of the namespace: the greatest id first, without the first `skip`, and at most
    /// `limit`.
    pub fn list(
        &self,
        alloc: Global,
        namespace: &EntityName,
        skip: u64,
        limit: u64,
    ) -> Result<Vals, NoMemory>
        ensures { IfOk result (λ vs. vs ≡ listing namespace.now skip limit self.now.items) }
    {
        last_shown(alloc, part(&self.by_namespace, namespace), skip, limit)
    }

    /// Copies of the records whose ends are at most `until`, by their ids.
    pub fn due(&self, until: u64) -> Result<Vec<Record>, NoMemory>
        ensures { IfOk result (λ rs. rs.items ≡ sorted_by id_key (filter (is_due until) self.now.items)) }
    {
        let alloc = *self.by_id.allocator();
        if until < self.least_end {
            return Ok(Vec::new(alloc));
        }
        due_copies(alloc, &self.by_id, until)
    }

    /// Removes the records whose ends are at most `until`. This takes no memory.
    pub fn retire(&mut self, until: u64)
        ensures { self.new.items ≡ filter (is_retained until) self.old.items }
    {
        if until < self.least_end {
            return;
        }
        retain_later(&mut self.by_end, until);
        retain_later(&mut self.by_id, until);
        retain_later(&mut self.by_namespace, until);
        self.least_end = least_end(&self.by_end);
    }

    fn found(&self, id: &Id) -> Option<&Record>
        ensures { option_copied result ≡ find (is_of_id id.now) self.now.items }
    {
        first_of(&self.by_id, id)
    }

    // Removes the last record, if there is one.
    fn take_last(&mut self)
        ensures { self.new.items ≡ take (length self.old.items - 1) self.old.items }
    {
        let Some(last) = self.by_end.pop() else {
            return;
        };
        take_by_id(&mut self.by_id, last.get());
        take_by_namespace(&mut self.by_namespace, last.get());
    }
}

fn put_by_id(list: &mut Vec<Shared<Record>>, added: Shared<Record>)
    requires rise { Rises id_key list.old.items }
    requires room { 1 ≤ vec_capacity list.old - vec_len list.old }
    ensures { list.new.items ≡ put_by id_key added list.old.items }
{
    let place = place_by_id(list, &added.get().id);
    put_at(list, place, added);
}

fn put_by_namespace(list: &mut Vec<Shared<Record>>, added: Shared<Record>)
    requires rise { Rises namespace_key list.old.items }
    requires room { 1 ≤ vec_capacity list.old - vec_len list.old }
    ensures { list.new.items ≡ put_by namespace_key added list.old.items }
{
    let place = place_by_namespace(list, added.get());
    put_at(list, place, added);
}

// Where memory for it is there.
fn put_at(list: &mut Vec<Shared<Record>>, place: usize, added: Shared<Record>)
    requires within { place ≤ vec_len list.old }
    requires room { 1 ≤ vec_capacity list.old - vec_len list.old }
    ensures { list.new.items ≡ take place list.old.items ++ added ∷ drop place list.old.items }
{
    let Ok(()) = list.insert(place, added) else {
        unreachable!()
    };
}

// Removes what `put_by_id` put in.
fn take_by_id(list: &mut Vec<Shared<Record>>, added: &Record)
    requires { Rises id_key list.old.items }
    ensures { (before : List Record) → list.old.items ≡ put_by id_key added.now before → list.new.items ≡ before }
{
    let place = place_by_id(list, &added.id);
    take_before(list, place);
}

// Removes what `put_by_namespace` put in.
fn take_by_namespace(list: &mut Vec<Shared<Record>>, added: &Record)
    requires { Rises namespace_key list.old.items }
    ensures { (before : List Record) → list.old.items ≡ put_by namespace_key added.now before → list.new.items ≡ before }
{
    let place = place_by_namespace(list, added);
    take_before(list, place);
}

// Removes the record before the place, if there is one.
fn take_before(list: &mut Vec<Shared<Record>>, place: usize)
    requires { place ≤ vec_len list.old }
    ensures { list.new.items ≡ take (place - 1) list.old.items ++ drop place list.old.items }
{
    if place > 0 {
        drop(list.remove(place - 1));
    }
}
