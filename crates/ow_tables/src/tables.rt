// The rows of the stored entities.
ghost use Rattle.std.specs.Prelude.{◌≡◌, ◌≢◌, ◌≤◌, ◌+◌, is_some, length, map, filter, Option, List, [], ◌∷◌, true, false, Some, None, Ok, IfOk, OnOk, IfErr, OnErr, MatchResult};
ghost use Rattle.std.specs.Result.{result_err};
ghost use Rattle.std.specs.Option.{option_copied};
ghost use Rattle.ow_names.specs.declared.full.FullName.{FullName};
ghost use Rattle.ow_entity.specs.Chain.{first_some};
ghost use Rattle.ow_entity.specs.declared.kinds.EntityKind.{EntityKind};
ghost use Rattle.ow_entity.specs.Finish.{finished_row};
ghost use Rattle.ow_entity.specs.Row.{draft_name};
ghost use Rattle.ow_entity.specs.declared.rows.Row.TheVariants as entities;
ghost use Rattle.ow_entity.specs.Written.{package_entry};
ghost use Rattle.ow_packages.specs.Access.{package_at, package_of, reached_package};
ghost use Rattle.ow_tables.specs.declared.refusal.TableRefusal.{TableRefusal};
ghost use Rattle.ow_tables.specs.Builtin.{builtin};
ghost use Rattle.ow_tables.specs.Rows.{AreRows, standing, found, found_after, with_row, resumed, changed, listing, stands_in};
ghost use Rattle.ow_tables.specs.Inside.{actions_behind, shown_actions};
ghost use Rattle.ow_tables.specs.Sequences.{sequence_refusal};
ghost use Rattle.ow_tables.specs.Refusal.{package_refusal, target_of, target_refusal, exists_refusal, finish_refusal, bound_refusal, holding_refusal, old_row, put_refusal, rule_refusal, remove_refusal};

use crate::builtin::{echo, utils};
use crate::inside::{actions_in, holds_actions};
use crate::joined::{check_joined, rule_at};
use crate::listing::{listing, part};
use crate::ready::Ready;
use crate::refusal::TableRefusal;
use crate::row_order::{order, place};
use crate::sequences::check_sequence;
use ow_entity::{Draft, EntityKind, Lookup, Package, Row, finish};
use ow_names::{EntityName, FullName};
use ow_packages::{check_binding, package_of, reached_package};
use ow_value::{NoMemory, PlainData, Shared, Vals, copy_slice};
use std::alloc::Global;
use std::marker::Model;
use std::mem::replace;

/// The stored entities, in the order of their kinds and the bytes of their full texts.
#[derive(Drop)]
pub struct Tables {
    rows: Vec<Row>,
}

impl Model for Tables {
    ghost use Rattle.std.specs.Prelude.{◌-◌, vec_len};
    ghost use Rattle.std.specs.Vec.{vec_capacity};
    ghost use Rattle.std.specs.Coded.{codes};
    ghost use Rattle.ow_value.specs.Code.{value_code};
    ghost use Rattle.ow_tables.specs.Contents.{Contents};
    ghost use Rattle.ow_tables.specs.Region.{AreKept};

    ghost Value = { Contents };

    ghost coded = { Prim.hlevel (codes, value_code) };

    ghost view = { λ a. record { rows = a.rows.items; room = vec_capacity a.rows - vec_len a.rows } };

    ghost invariant = { λ a. AreKept a.rows.items };
}

impl Tables {
    /// The built-in rows alone.
    pub fn new(alloc: Global) -> Result<Tables, NoMemory>
        ensures { IfOk result (λ t. t.rows ≡ builtin) }
    {
        let mut rows = Vec::with_capacity(alloc, 2)?;
        rows.push(Row::Action(Shared::new(alloc, echo(alloc)?)?))?;
        rows.push(Row::Package(Shared::new(alloc, utils(alloc)?)?))?;
        Ok(Tables { rows })
    }

    /// No rows at all, without the built-in ones. This takes no memory.
    pub(crate) fn empty(alloc: Global) -> Tables
        ensures { result.rows ≡ [] }
    {
        Tables {
            rows: Vec::new(alloc),
        }
    }

    /// Puts the row at its place, or over the row of its kind and name.
    pub(crate) fn add(&mut self, row: Row) -> Result<(), NoMemory>
        ensures { OnOk result (self.new.rows ≡ with_row row self.old.rows) }
    {
        self.make_room(1)?;
        self.put_in(row);
        Ok(())
    }

    /// Makes the row of the draft ready to be put. This takes all the memory that the change needs.
    pub fn prepare_put(
        &mut self,
        alloc: Global,
        draft: Draft,
        overwrite: bool,
    ) -> Result<Ready, TableRefusal>
        ensures unrefused { OnOk result (put_refusal draft overwrite self.old.rows ≡ None) }
        ensures refused { IfErr result (λ e. e ≢ TableRefusal.NoMemory → put_refusal draft overwrite self.old.rows ≡ Some e) }
        ensures row { IfOk result (λ r. finished_row draft (old_row draft self.old.rows) ≡ Ok r.row) }
        ensures puts { IfOk result (λ r. r.removes ≡ false) }
        ensures rows { self.new.rows ≡ self.old.rows }
        ensures room { OnOk result (1 ≤ self.new.room) }
        ensures unchanged { OnErr result (self.new ≡ self.old) }
    {
        let row = self.made(alloc, draft, overwrite)?;
        self.make_room(1)?;
        Ok(Ready {
            row,
            removes: false,
        })
    }

    /// Makes the row ready to be stored as it is. This takes all the memory that the change needs.
    pub fn prepare_row(&mut self, row: Row) -> Result<Ready, NoMemory>
        ensures ready { IfOk result (λ r. r ≡ record { row = row; removes = false }) }
        ensures rows { self.new.rows ≡ self.old.rows }
        ensures room { OnOk result (1 ≤ self.new.room) }
        ensures unchanged { OnErr result (self.new ≡ self.old) }
    {
        self.make_room(1)?;
        Ok(Ready {
            row,
            removes: false,
        })
    }

    /// Makes the row of the kind and the name ready to be taken out.
    pub fn prepare_remove(
        &mut self,
        alloc: Global,
        kind: EntityKind,
        name: &FullName,
    ) -> Result<Ready, TableRefusal>
        ensures unrefused { OnOk result (remove_refusal kind name.now self.old.rows ≡ None) }
        ensures refused { IfErr result (λ e. e ≢ TableRefusal.NoMemory → remove_refusal kind name.now self.old.rows ≡ Some e) }
        ensures row { IfOk result (λ r. found kind name.now self.old.rows ≡ Some r.row) }
        ensures removes { IfOk result (λ r. r.removes ≡ true) }
        ensures unchanged { self.new ≡ self.old }
    {
        let row = self.removable(alloc, kind, name)?;
        Ok(Ready { row, removes: true })
    }

    /// Makes the change. This takes no memory.
    pub fn apply(&mut self, ready: Ready)
        requires { ready.removes ≡ false → 1 ≤ self.old.room }
        ensures rows { self.new.rows ≡ changed ready self.old.rows }
        ensures finds { (kind : EntityKind) (name : FullName)
            → found kind name self.new.rows ≡ found_after ready kind name (found kind name self.old.rows) }
    {
        self.make(ready);
    }

    /// Puts the rows of an earlier run, each at its place by kind and full text, or over the row of its kind and name.
    /// Where they come in this order, each moves no more rows than there were before.
    pub fn resume(&mut self, rows: Vec<Row>) -> Result<(), NoMemory>
        ensures rows { OnOk result (self.new.rows ≡ resumed rows.items self.old.rows) }
        ensures unchanged { OnErr result (self.new ≡ self.old) }
    {
        self.make_room(rows.len())?;
        self.put_all(rows);
        Ok(())
    }

    /// Makes room for that many more rows.
    pub fn reserve(&mut self, count: usize) -> Result<(), NoMemory>
        ensures rows { self.new.rows ≡ self.old.rows }
        ensures room { OnOk result (count ≤ self.new.room) }
        ensures unchanged { OnErr result (self.new ≡ self.old) }
    {
        self.make_room(count)
    }

    /// Puts rows one after another, each in its place by kind and full text, or in that of the row of its kind and name. This takes no
    /// memory.
    pub fn put_rows(&mut self, rows: Vec<Row>)
        requires { length rows.items ≤ self.old.room }
        ensures { self.new.rows ≡ resumed rows.items self.old.rows }
    {
        self.put_all(rows);
    }

    /// The row of the kind and the name.
    pub fn get(&self, kind: EntityKind, name: &FullName) -> Result<&Row, TableRefusal>
        ensures { MatchResult result (λ r. found kind name.now self.now.rows ≡ Some r.now)
            (λ e. (found kind name.now self.now.rows ≡ None) × (e ≡ TableRefusal.NotFound)) }
    {
        self.row(kind, name).ok_or(TableRefusal::NotFound)
    }

    /// The rows, lent, in their order.
    pub fn rows(&self) -> &[Row]
        ensures { result.now ≡ self.now.rows }
    {
        &self.rows
    }

    /// The rows of the kind in the namespace, in packages too, lent, in their order.
    pub fn rows_in(&self, kind: EntityKind, namespace: &EntityName) -> &[Row]
        ensures { result.now ≡ filter (stands_in kind namespace.now) self.now.rows }
    {
        part(&self.rows, kind, namespace)
    }

    /// Makes known that the rows are in order, none twice.
    pub fn are_ordered(&self)
        ensures { AreRows self.now.rows }
    {
        let _rows = self.rows.as_slice();
    }

    /// What lists show of the rows of the kind in the namespace, in packages too: by name, without the first `skip`,
    /// and at most `limit`.
    pub fn list(
        &self,
        alloc: Global,
        kind: EntityKind,
        namespace: &EntityName,
        skip: u64,
        limit: u64,
    ) -> Result<Vals, NoMemory>
        ensures value { IfOk result (λ vs. vs ≡ listing kind namespace.now skip limit self.now.rows) }
        ensures order { AreRows self.now.rows }
    {
        listing(alloc, &self.rows, kind, namespace, skip, limit)
    }

    /// What the package shows of the actions that are called by its name: of a binding those of the package that it
    /// binds, where its namespace reaches that.
    pub fn actions_of(&self, alloc: Global, bundle: &Package) -> Result<Vals, NoMemory>
        ensures { IfOk result (λ vs. vs ≡ shown_actions bundle.now self.now.rows) }
    {
        match &bundle.binding {
            None => actions_in(alloc, &self.rows, &bundle.name),
            Some(target) => match reached_package(self, target, &bundle.name.namespace) {
                Some(_) => actions_in(alloc, &self.rows, target),
                None => Ok(Vals::new()),
            },
        }
    }

    /// What the package will show of the actions that are called by its name once it is put.
    pub fn actions_once_put(&self, alloc: Global, bundle: &Package) -> Result<Vals, NoMemory>
        ensures { IfOk result (λ vs. vs ≡ shown_actions bundle.now (with_row (entities.Package bundle.now) self.now.rows)) }
    {
        match &bundle.binding {
            None => actions_in(alloc, &self.rows, &bundle.name),
            Some(target) => self.actions_bound(alloc, bundle, target),
        }
    }

    /// Equal tables. Both share their entities.
    pub fn copy(&self, alloc: Global) -> Result<Tables, NoMemory>
        ensures { IfOk result (λ t. t.rows ≡ self.now.rows) }
    {
        Ok(Tables {
            rows: copy_slice(alloc, &self.rows)?,
        })
    }

    // What a package that is to bind the target will show.
    fn actions_bound(
        &self,
        alloc: Global,
        bundle: &Package,
        target: &FullName,
    ) -> Result<Vals, NoMemory>
        ensures { IfOk result (λ vs. vs ≡ map package_entry (actions_behind bundle.now (Some target.now) (with_row (entities.Package bundle.now) self.now.rows))) }
    {
        if self.reaches_once_put(bundle, target) {
            return actions_in(alloc, &self.rows, target);
        }
        Ok(Vals::new())
    }

    // Whether the package will reach the target once it is put.
    fn reaches_once_put(&self, bundle: &Package, target: &FullName) -> bool
        ensures { result ≡ is_some (reached_package (standing (with_row (entities.Package bundle.now) self.now.rows)) target.now bundle.now.name.namespace) }
    {
        let order = target.compare(&bundle.name);
        let reached = reached_package(self, target, &bundle.name.namespace).is_some();
        order.is_eq() || reached
    }

    // Takes memory for `count` more rows.
    fn make_room(&mut self, count: usize) -> Result<(), NoMemory>
        ensures rows { self.new.rows ≡ self.old.rows }
        ensures room { OnOk result (count ≤ self.new.room) }
        ensures unchanged { OnErr result (self.new ≡ self.old) }
    {
        self.rows.reserve(count)?;
        Ok(())
    }

    // Checks that a rule's trigger is in its namespace, and its action can be called from there.
    fn check_joined(&self, alloc: Global, draft: &Draft) -> Result<(), TableRefusal>
        ensures { MatchResult result (λ _. rule_refusal draft.now self.now.rows ≡ None)
            (λ e. e ≢ TableRefusal.NoMemory → rule_refusal draft.now self.now.rows ≡ Some e) }
    {
        match draft {
            Draft::Rule(draft) => check_joined(alloc, self, draft, rule_at(self, &draft.name)),
            _ => Ok(()),
        }
    }

    // Checks that the package in which the name lies, if any, exists and is no binding.
    fn check_package(&self, alloc: Global, name: &FullName) -> Result<(), TableRefusal>
        ensures { MatchResult result (λ _. package_refusal (package_of name.now) self.now.rows ≡ None)
            (λ e. e ≢ TableRefusal.NoMemory → package_refusal (package_of name.now) self.now.rows ≡ Some e) }
    {
        let Some(bundle) = package_of(alloc, name)? else {
            return Ok(());
        };
        match self.package_at(&bundle) {
            None => Err(TableRefusal::NotFound),
            Some(bundle) if bundle.binding.is_some() => Err(TableRefusal::BindsABinding),
            Some(_) => Ok(()),
        }
    }

    // Checks that the package that the draft binds, if any, can be bound.
    fn check_target(&self, draft: &Draft) -> Result<(), TableRefusal>
        ensures { result_err result ≡ target_refusal (target_of draft.now) (draft_name draft.now).namespace self.now.rows }
    {
        match target_of(draft) {
            Some(target) => Ok(check_binding(self, target, &draft.name().namespace)?),
            None => Ok(()),
        }
    }

    // Checks that the name, if it lies in a package, doesn't lie in a binding.
    fn check_unbound(&self, alloc: Global, name: &FullName) -> Result<(), TableRefusal>
        ensures { MatchResult result (λ _. bound_refusal (package_of name.now) self.now.rows ≡ None)
            (λ e. e ≢ TableRefusal.NoMemory → bound_refusal (package_of name.now) self.now.rows ≡ Some e) }
    {
        let Some(bundle) = package_of(alloc, name)? else {
            return Ok(());
        };
        match self.package_at(&bundle) {
            Some(bundle) if bundle.binding.is_some() => Err(TableRefusal::BindsABinding),
            _ => Ok(()),
        }
    }

    // Checks that a package that is to be removed holds no action.
    fn check_empty(&self, kind: EntityKind, name: &FullName) -> Result<(), TableRefusal>
        ensures { result_err result ≡ holding_refusal kind name.now self.now.rows }
    {
        match kind {
            EntityKind::Package => {
                if holds_actions(&self.rows, name) {
                    return Err(TableRefusal::NotEmpty);
                }
                Ok(())
            }
            _ => Ok(()),
        }
    }

    // The package of the name.
    fn package_at(&self, name: &FullName) -> Option<&Package>
        ensures { option_copied result ≡ package_at (standing self.now.rows) name.now }
    {
        match self.row(EntityKind::Package, name) {
            Some(Row::Package(bundle)) => Some(bundle.get()),
            _ => None,
        }
    }

    // The row of the kind and the name, where it may be removed.
    fn removable(
        &self,
        alloc: Global,
        kind: EntityKind,
        name: &FullName,
    ) -> Result<Row, TableRefusal>
        ensures unrefused { OnOk result (remove_refusal kind name.now self.now.rows ≡ None) }
        ensures refused { IfErr result (λ e. e ≢ TableRefusal.NoMemory → remove_refusal kind name.now self.now.rows ≡ Some e) }
        ensures row { IfOk result (λ r. found kind name.now self.now.rows ≡ Some r) }
    {
        let row = self.get(kind, name)?;
        self.check_unbound(alloc, name)?;
        self.check_empty(kind, name)?;
        Ok(row.copy(alloc)?)
    }

    // The row of the draft, where the package in which it is to lie exists.
    fn made(&self, alloc: Global, draft: Draft, overwrite: bool) -> Result<Row, TableRefusal>
        ensures unrefused { OnOk result (put_refusal draft overwrite self.now.rows ≡ None) }
        ensures refused { IfErr result (λ e. e ≢ TableRefusal.NoMemory → put_refusal draft overwrite self.now.rows ≡ Some e) }
        ensures row { IfOk result (λ r. finished_row draft (old_row draft self.now.rows) ≡ Ok r) }
    {
        match self.check_put(alloc, &draft) {
            Ok(()) => self.finished(alloc, draft, overwrite),
            Err(refusal) => {
                drop(draft);
                Err(refusal)
            }
        }
    }

    // Checks that the draft can join what it is to join, lie where it is to lie, and bind what it is to bind.
    fn check_put(&self, alloc: Global, draft: &Draft) -> Result<(), TableRefusal>
        ensures joined { OnOk result (rule_refusal draft.now self.now.rows ≡ None) }
        ensures place { OnOk result (package_refusal (package_of (draft_name draft.now)) self.now.rows ≡ None) }
        ensures target { OnOk result (target_refusal (target_of draft.now) (draft_name draft.now).namespace self.now.rows ≡ None) }
        ensures refused { IfErr result (λ e. e ≢ TableRefusal.NoMemory → (rest : List (Option TableRefusal))
            → first_some (rule_refusal draft.now self.now.rows ∷ package_refusal (package_of (draft_name draft.now)) self.now.rows
            ∷ target_refusal (target_of draft.now) (draft_name draft.now).namespace self.now.rows ∷ rest) ≡ Some e) }
    {
        self.check_joined(alloc, draft)?;
        self.check_package(alloc, draft.name())?;
        self.check_target(draft)
    }

    // The row of the draft, over the stored row, if any, where it is no sequence that is too long or leads back to itself.
    fn finished(&self, alloc: Global, draft: Draft, overwrite: bool) -> Result<Row, TableRefusal>
        ensures way { OnOk result (exists_refusal overwrite (old_row draft self.now.rows) ≡ None) }
        ensures row { IfOk result (λ r. finished_row draft (old_row draft self.now.rows) ≡ Ok r) }
        ensures refused { IfErr result (λ e. e ≢ TableRefusal.NoMemory
            → first_some (exists_refusal overwrite (old_row draft self.now.rows) ∷ finish_refusal draft (old_row draft self.now.rows)
            ∷ sequence_refusal self.now.rows (finished_row draft (old_row draft self.now.rows)) ∷ []) ≡ Some e) }
        ensures sequence { OnOk result (sequence_refusal self.now.rows (finished_row draft (old_row draft self.now.rows)) ≡ None) }
    {
        let old = self.row(draft.kind(), draft.name());
        if old.is_some() && !overwrite {
            drop(draft);
            return Err(TableRefusal::Exists);
        }
        let row = finish(alloc, draft, old)?;
        match self.check_sequence(alloc, &row) {
            Ok(()) => Ok(row),
            Err(refusal) => {
                drop(row);
                Err(refusal)
            }
        }
    }

    // Checks that the row is no sequence that is too long or leads back to itself.
    fn check_sequence(&self, alloc: Global, row: &Row) -> Result<(), TableRefusal>
        ensures { MatchResult result (λ _. sequence_refusal self.now.rows (Ok row.now) ≡ None)
            (λ e. e ≢ TableRefusal.NoMemory → sequence_refusal self.now.rows (Ok row.now) ≡ Some e) }
    {
        match row {
            Row::Action(action) => check_sequence(alloc, self, self.rows.len(), action.get()),
            _ => Ok(()),
        }
    }

    fn make(&mut self, ready: Ready)
        requires { ready.removes ≡ false → 1 ≤ self.old.room }
        ensures { self.new.rows ≡ changed ready self.old.rows }
    {
        let Ready { row, removes } = ready;
        if removes {
            self.take_out(&row);
        } else {
            self.put_in(row);
        }
    }

    // Puts the rows one after the other. There is room for each.
    fn put_all(&mut self, rows: Vec<Row>)
        requires { length rows.items ≤ self.old.room }
        ensures { self.new.rows ≡ resumed rows.items self.old.rows }
    {
        for row in rows {
            self.put_in(row);
        }
    }

    fn put_in(&mut self, row: Row)
        requires { 1 ≤ self.old.room }
        ensures rows { self.new.rows ≡ with_row row self.old.rows }
        ensures room { self.old.room ≤ self.new.room + 1 }
    {
        let namespace = &row.name().namespace;
        namespace.compare_as_part(namespace);
        match place(&self.rows, row.kind(), row.name()) {
            Ok(i) => drop(replace(&mut self.rows[i], row)),
            Err(i) => {
                let Ok(()) = self.rows.insert(i, row) else {
                    unreachable!()
                };
            }
        }
    }

    fn take_out(&mut self, row: &Row)
        ensures { self.new.rows ≡ changed (record { row = row.now; removes = true }) self.old.rows }
    {
        if let Ok(i) = place(&self.rows, row.kind(), row.name()) {
            drop(self.rows.remove(i));
        }
    }
}

impl Lookup for Tables {
    ghost use Rattle.ow_tables.specs.Rows.{found};

    ghost found = { λ t kind name. found kind name t.rows };

    fn row(&self, kind: EntityKind, name: &FullName) -> Option<&Row> {
        match place(&self.rows, kind, name) {
            Ok(i) => {
                let row = &self.rows[i];
                order(row, kind, name);
                Some(row)
            }
            Err(_) => None,
        }
    }
}

// The package that the draft binds.
fn target_of(draft: &Draft) -> Option<&FullName>
    ensures { option_copied result ≡ target_of draft.now }
{
    match draft {
        Draft::Package(draft) => match &draft.binding {
            Some(Some(target)) => Some(target),
            Some(None) | None => None,
        },
        _ => None,
    }
}
