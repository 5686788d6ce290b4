// The table as its rows make it, one after another.
ghost use Rattle.std.specs.Prelude.{◌≡◌, ◌≢◌, ◌<◌, [], ◌∷◌, ◌++◌, Some, None, Err, OnOk, IfOk};
ghost use Rattle.std.specs.List.{list_any};
ghost use Rattle.ow_tenant.specs.Rights.{all_rights};
ghost use Rattle.ow_tenant.specs.Table.{Table, granted, has_number, is_called, is_listed, no_rows, same_kind, wants_same, with_grant, with_key, with_line, with_namespace, with_pool, with_prewarm, with_program, with_retain};

use crate::days::Days;
use crate::entries::{Holder, Space};
use crate::limits::NamespaceLimits;
use crate::line::{Line, RowFault};
use crate::rights::{Right, Rights};
use ow_names::EntityName;
use ow_traits::{Kind, Prewarm};
use ow_value::{ByText, NoMemory, PlainData, Str};
use std::alloc::Global;
use std::marker::Model;

/// What the rows so far say.
#[derive(Drop)]
pub(crate) struct Draft {
    pub(crate) namespaces: ByText<Space>,
    pub(crate) keys: ByText<Holder>,
    pub(crate) pool: Option<u32>,
    pub(crate) wants: Vec<Prewarm>,
    pub(crate) programs: Vec<(Str, Str)>,
    pub(crate) retain: Option<Days>,
}

impl Model for Draft {
    ghost use Rattle.ow_tenant.specs.Table.{Table};

    ghost Value = { Table };

    ghost view = { λ d. record { namespaces = d.namespaces; keys = d.keys; pool = d.pool; wants = d.wants.items; programs = d.programs.items; retain = d.retain } };
}

impl Draft {
    /// Before the first row. This takes no memory.
    pub(crate) fn new(alloc: Global) -> Draft
        ensures { result ≡ no_rows }
    {
        Draft {
            namespaces: ByText::new(alloc),
            keys: ByText::new(alloc),
            pool: None,
            wants: Vec::new(alloc),
            programs: Vec::new(alloc),
            retain: None,
        }
    }

    /// Takes what one more row says.
    pub(crate) fn take(&mut self, alloc: Global, line: Line) -> Result<(), RowFault>
        ensures ok { OnOk result (with_line self.old line ≡ Some self.new) }
        ensures bad { result ≡ Err RowFault.Bad → with_line self.old line ≡ None }
    {
        match line {
            Line::Namespace {
                number,
                name,
                limits,
            } => self.take_namespace(alloc, number, name, limits),
            Line::Key { key, subject, home } => self.take_key(alloc, key, subject, home),
            Line::Grant {
                key,
                namespace,
                right,
            } => self.take_grant(alloc, key, namespace, right),
            Line::Pool { memory } => self.take_pool(memory),
            Line::Prewarming { wanted } => self.take_prewarm(wanted),
            Line::Program { name, path } => self.take_program(name, path),
            Line::Retain { days } => self.take_retain(days),
        }
    }

    fn is_listed(&self, namespace: &EntityName) -> bool
        ensures { result ≡ is_listed namespace.now self.now }
    {
        self.namespaces
            .find(namespace.as_str().as_bytes())
            .is_some()
    }

    fn take_namespace(
        &mut self,
        alloc: Global,
        number: u32,
        name: EntityName,
        limits: NamespaceLimits,
    ) -> Result<(), RowFault>
        ensures ok { OnOk result (with_namespace self.old number name limits ≡ Some self.new) }
        ensures bad { result ≡ Err RowFault.Bad → with_namespace self.old number name limits ≡ None }
    {
        if self.is_listed(&name) || has_number(self.namespaces.entries(), number) {
            return Err(RowFault::Bad);
        }
        let text = Str::of(alloc, name.as_str())?;
        self.namespaces.put(text, Space { number, limits })?;
        Ok(())
    }

    fn take_key(
        &mut self,
        alloc: Global,
        key: Str,
        subject: Str,
        home: EntityName,
    ) -> Result<(), RowFault>
        ensures ok { OnOk result (with_key self.old key subject home ≡ Some self.new) }
        ensures bad { result ≡ Err RowFault.Bad → with_key self.old key subject home ≡ None }
    {
        let known = self.keys.find(key.as_str().as_bytes()).is_some();
        if known || !self.is_listed(&home) {
            return Err(RowFault::Bad);
        }
        let holder = new_holder(alloc, subject, home)?;
        self.keys.put(key, holder)?;
        Ok(())
    }

    fn take_grant(
        &mut self,
        alloc: Global,
        key: Str,
        namespace: EntityName,
        right: Right,
    ) -> Result<(), RowFault>
        ensures ok { OnOk result (with_grant self.old key namespace right ≡ Some self.new) }
        ensures bad { result ≡ Err RowFault.Bad → with_grant self.old key namespace right ≡ None }
    {
        if !self.is_listed(&namespace) {
            return Err(RowFault::Bad);
        }
        let Some(holder) = self.keys.find(key.as_str().as_bytes()) else {
            return Err(RowFault::Bad);
        };
        let holder = with_grant(alloc, holder, &namespace, right)?;
        self.keys.put(key, holder)?;
        Ok(())
    }

    fn take_pool(&mut self, memory: u32) -> Result<(), RowFault>
        ensures ok { OnOk result (with_pool self.old memory ≡ Some self.new) }
        ensures bad { result ≡ Err RowFault.Bad → with_pool self.old memory ≡ None }
    {
        if self.pool.is_some() {
            return Err(RowFault::Bad);
        }
        self.pool = Some(memory);
        Ok(())
    }

    fn take_prewarm(&mut self, wanted: Prewarm) -> Result<(), RowFault>
        ensures ok { OnOk result (with_prewarm self.old wanted ≡ Some self.new) }
        ensures bad { result ≡ Err RowFault.Bad → with_prewarm self.old wanted ≡ None }
    {
        if is_wanted(&self.wants, &wanted) {
            return Err(RowFault::Bad);
        }
        push(&mut self.wants, wanted)?;
        Ok(())
    }

    fn take_program(&mut self, name: Str, path: Str) -> Result<(), RowFault>
        ensures ok { OnOk result (with_program self.old name path ≡ Some self.new) }
        ensures bad { result ≡ Err RowFault.Bad → with_program self.old name path ≡ None }
    {
        if is_program(&self.programs, name.as_str()) {
            return Err(RowFault::Bad);
        }
        push(&mut self.programs, (name, path))?;
        Ok(())
    }

    fn take_retain(&mut self, days: Days) -> Result<(), RowFault>
        ensures ok { OnOk result (with_retain self.old days ≡ Some self.new) }
        ensures bad { result ≡ Err RowFault.Bad → with_retain self.old days ≡ None }
    {
        if self.retain.is_some() {
            return Err(RowFault::Bad);
        }
        self.retain = Some(days);
        Ok(())
    }
}

fn has_number(namespaces: &[(Str, Space)], number: u32) -> bool
    ensures { result ≡ list_any (has_number number) namespaces.now }
{
    namespaces.iter().any(|e| e.1.number == number)
}

fn is_program(programs: &[(Str, Str)], name: &str) -> bool
    ensures { result ≡ list_any (is_called name.now) programs.now }
{
    programs.iter().any(|p| p.0.as_str() == name)
}

fn is_wanted(wants: &[Prewarm], wanted: &Prewarm) -> bool
    ensures { result ≡ list_any (wants_same wanted.now) wants.now }
{
    wants.iter().any(|w| wants_same(wanted, w))
}

fn wants_same(a: &Prewarm, b: &Prewarm) -> bool
    ensures { result ≡ wants_same a.now b.now }
{
    same_kind(a.kind, b.kind) && a.memory == b.memory
}

fn same_kind(a: Kind, b: Kind) -> bool
    ensures { result ≡ same_kind a b }
{
    match (a, b) {
        (Kind::Plain, Kind::Plain) => true,
        (Kind::Program, Kind::Program) => true,
        _ => false,
    }
}

// Who holds a key, with all rights on the key's own namespace.
fn new_holder(alloc: Global, subject: Str, home: EntityName) -> Result<Holder, NoMemory>
    ensures { IfOk result (λ h. h ≡ record { subject = subject; home = home; rights = (home, all_rights) ∷ [] }) }
{
    let mut rights = ByText::new(alloc);
    rights.put(Str::of(alloc, home.as_str())?, Rights::all())?;
    Ok(Holder {
        subject,
        home,
        rights,
    })
}

// The same with one more right.
fn with_grant(
    alloc: Global,
    holder: &Holder,
    namespace: &EntityName,
    right: Right,
) -> Result<Holder, NoMemory>
    ensures { IfOk result (λ h. h ≡ granted namespace.now right holder.now) }
{
    let had = match holder.rights.find(namespace.as_str().as_bytes()) {
        Some(rights) => *rights,
        None => Rights::none(),
    };
    let text = Str::of(alloc, namespace.as_str())?;
    let mut holder = holder.copy(alloc)?;
    holder.rights.put(text, had.with(right))?;
    Ok(holder)
}

fn push<T: Drop>(list: &mut Vec<T>, item: T) -> Result<(), NoMemory>
    ensures { OnOk result (list.new.items ≡ list.old.items ++ item ∷ []) }
{
    list.push(item)?;
    Ok(())
}
