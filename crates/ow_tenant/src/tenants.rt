// The office table, and what it says.
ghost use Rattle.std.specs.Prelude.{◌≡◌, ◌<◌, ◌≤◌, length, map, Some, None, Err, option_map, IfOk, IfSome};
ghost use Rattle.std.specs.List.{AllByRecursion};
ghost use Rattle.std.specs.Option.{option_copied};
ghost use Rattle.ow_names.specs.Name.{IsName};
ghost use Rattle.ow_traits.specs.Streams.{Rose};
ghost use Rattle.ow_tenant.specs.Days.{AreDays};
ghost use Rattle.ow_tenant.specs.Reading.{ReadsUpTo, TellsTable, most_read};
ghost use Rattle.ow_traits.specs.Prewarms.{AreWantsSized};
ghost use Rattle.ow_tenant.specs.Table.{IsPoolSized, no_rows};
ghost use Rattle.ow_tenant.specs.Tenants.{Knows, granted_names, holder_at, holder_of, is_listed, limits_of, may, name_value, number_of, pool_of};

use crate::days::Days;
use crate::entries::{Holder, Space};
use crate::known::known_homes;
use crate::limits::NamespaceLimits;
use crate::read::{read_bytes, read_rows};
use crate::refusal::TenantRefusal;
use crate::rights::{Right, Rights};
use crate::table::Draft;
use ow_names::EntityName;
use ow_traits::{Prewarms, Source};
use ow_value::{ByText, NoMemory, Pairs, PlainData, Shared, Str, Val, Vals, copied4};
use std::alloc::Global;
use std::marker::Model;

/// The most bytes of the table.
pub const MOST_BYTES: usize = 4_194_304;

/// The memory of all containers where no row gives it, in MB.
const DEFAULT_POOL: u32 = 2048;

/// A key of the table it was asked of.
#[derive(Clone, Copy, Debug, PartialEq, Eq, Drop)]
pub struct KeyNumber {
    /// Its place among the keys.
    pub place: usize,
}

/// The office table: who may ask for what, and how much of it. Its copies share it.
#[derive(Drop)]
pub struct Tenants {
    namespaces: Shared<ByText<Space>>,
    keys: Shared<ByText<Holder>>,
    pool: Option<u32>,
    wants: Prewarms,
    programs: Pairs,
    retain: Option<Days>,
}

impl Model for Tenants {
    ghost use Rattle.ow_tenant.specs.Table.{Table};

    ghost Value = { Table };

    ghost view = { λ t. record { namespaces = t.namespaces; keys = t.keys; pool = t.pool; wants = t.wants; programs = t.programs; retain = t.retain } };
}

impl Tenants {
    /// Reads the table from the source, to its end. It is CSV without a header.
    pub fn read<S: Source>(alloc: Global, source: &mut S) -> Result<Tenants, TenantRefusal>
        ensures told { TellsTable (S.left source.old) (S.left source.new) result }
        ensures most { ReadsUpTo most_read (S.left source.old) (S.left source.new) }
        ensures sized { IfOk result (λ t. AreWantsSized t.wants) }
        ensures pool { IfOk result (λ t. IsPoolSized t.pool) }
        ensures faults_grow { S.faults source.old ≤ S.faults source.new }
        ensures cause { result ≡ Err TenantRefusal.ReadFault → Rose (S.faults source.old) (S.faults source.new) }
    {
        let text = read_bytes(alloc, source)?;
        if text.len() > MOST_BYTES {
            return Err(TenantRefusal::BadRow { row: 0 });
        }
        let draft = read_rows(alloc, &text)?;
        Ok(Tenants::from_draft(alloc, draft)?)
    }

    fn from_draft(alloc: Global, draft: Draft) -> Result<Tenants, NoMemory>
        ensures { IfOk result (λ t. t ≡ draft) }
    {
        let Draft {
            namespaces,
            keys,
            pool,
            wants,
            programs,
            retain,
        } = draft;
        let namespaces = Shared::new(alloc, namespaces)?;
        let keys = Shared::new(alloc, keys)?;
        let wants = Prewarms::from_vec(wants)?;
        let programs = Pairs::from_vec(programs)?;
        Ok(Tenants {
            namespaces,
            keys,
            pool,
            wants,
            programs,
            retain,
        })
    }

    /// The number of the key. No key and a key that the table doesn't have are answered alike.
    pub fn who(&self, key: Option<&str>) -> Result<KeyNumber, TenantRefusal>
        ensures { Knows (option_copied key.entry) self.now result }
    {
        let Some(key) = key else {
            return Err(TenantRefusal::UnknownKey);
        };
        match self.keys.get().place(key.as_bytes()) {
            Some(place) => Ok(KeyNumber { place }),
            None => Err(TenantRefusal::UnknownKey),
        }
    }

    /// Who holds the key of a request. No key and a key that the table doesn't have are answered alike.
    pub fn holder_of(&self, key: Option<&str>) -> Option<&Holder>
        ensures { option_map (λ h. h.now) result ≡ holder_of (option_copied key.entry) self.now }
    {
        match key {
            Some(key) => self.keys.get().find(key.as_bytes()),
            None => None,
        }
    }

    /// Whether the key has the right in the namespace.
    pub fn may(&self, key: KeyNumber, namespace: &[u8], right: Right) -> Result<(), TenantRefusal>
        requires { key.place < length self.now.keys }
        ensures { result ≡ may self.now key.place namespace.now right }
    {
        if self.holder(key).may(namespace, right) {
            Ok(())
        } else {
            Err(TenantRefusal::NotGranted)
        }
    }

    /// Makes known that the own namespace of each key is a name. It looks at each key.
    pub fn known_homes(&self)
        ensures { AllByRecursion (λ e. IsName e.1.home) self.now.keys }
    {
        known_homes(self.keys.get().entries());
    }

    /// Who holds the key.
    pub fn holder(&self, key: KeyNumber) -> &Holder
        requires { key.place < length self.now.keys }
        ensures { Some result.now ≡ holder_at key.place self.now }
    {
        &self.keys.get().entries()[key.place].1
    }

    /// The namespace to which the key's holder belongs.
    pub fn home(&self, key: KeyNumber) -> &EntityName
        requires { key.place < length self.now.keys }
        ensures { Some result.now ≡ option_map (λ h. h.home) (holder_at key.place self.now) }
    {
        &self.holder(key).home
    }

    /// The name of who holds the key.
    pub fn subject(&self, key: KeyNumber) -> &Str
        requires { key.place < length self.now.keys }
        ensures { Some result.now ≡ option_map (λ h. h.subject) (holder_at key.place self.now) }
    {
        &self.holder(key).subject
    }

    /// How much the namespace may ask for.
    pub fn limits_of(&self, namespace: &EntityName) -> NamespaceLimits
        ensures { result ≡ limits_of namespace.now self.now }
    {
        match self.namespaces.get().find(namespace.as_str().as_bytes()) {
            Some(space) => space.limits,
            None => NamespaceLimits::defaults(),
        }
    }

    /// By which number ids of the namespace begin.
    pub fn number_of(&self, namespace: &EntityName) -> Option<u64>
        ensures { result ≡ number_of namespace.now self.now }
    {
        let namespace = namespace.as_str().as_bytes();
        if namespace == b"whisk.system".as_slice() {
            return Some(0);
        }
        match self.namespaces.get().find(namespace) {
            Some(space) => Some(u64::from(space.number)),
            None => None,
        }
    }

    /// Whether the office table has a row of the namespace. The service's own has none.
    pub fn is_listed(&self, namespace: &EntityName) -> bool
        ensures { result ≡ is_listed namespace.now self.now }
    {
        self.namespaces
            .get()
            .find(namespace.as_str().as_bytes())
            .is_some()
    }

    /// The names of the namespaces in which the key has a right, in the order of their bytes.
    pub fn granted(&self, alloc: Global, key: KeyNumber) -> Result<Vals, NoMemory>
        requires { key.place < length self.now.keys }
        ensures { IfOk result (λ names. Some names ≡ granted_names self.now key.place) }
    {
        self.holder(key).granted(alloc)
    }

    /// The table of a service that is given none: no namespace and no key.
    pub fn none(alloc: Global) -> Result<Tenants, NoMemory>
        ensures { IfOk result (λ t. t ≡ no_rows) }
    {
        Tenants::from_draft(alloc, Draft::new(alloc))
    }

    /// The memory that all containers may have, in MB.
    pub fn pool(&self) -> u32
        ensures { result ≡ pool_of self.now }
    {
        self.pool.unwrap_or(DEFAULT_POOL)
    }

    /// Which containers are wanted ahead, in the order of their rows.
    pub fn wants(&self) -> &Prewarms
        ensures { result.now ≡ self.now.wants }
    {
        &self.wants
    }

    /// The programs and their paths, in the order of their rows.
    pub fn programs(&self) -> &Pairs
        ensures { result.now ≡ self.now.programs }
    {
        &self.programs
    }

    /// For how many days after its end a record is retained, where a row gives it. Without the row it stays.
    pub fn retain(&self) -> Option<u32>
        ensures value { result ≡ self.now.retain }
        ensures within { IfSome result AreDays }
    {
        match self.retain {
            Some(days) => Some(days.get()),
            None => None,
        }
    }
}

impl PlainData for Tenants {
    fn same(&self, other: &Tenants) -> bool {
        self.namespaces.same(&other.namespaces)
            && self.keys.same(&other.keys)
            && self.pool == other.pool
            && self.wants.same(&other.wants)
            && self.programs.same(&other.programs)
            && self.retain == other.retain
    }

    fn copy(&self, alloc: Global) -> Result<Tenants, NoMemory> {
        let (namespaces, keys, wants, programs) = copied4(
            alloc,
            &self.namespaces,
            &self.keys,
            &self.wants,
            &self.programs,
        )?;
        Ok(Tenants {
            namespaces,
            keys,
            pool: self.pool,
            wants,
            programs,
            retain: self.retain,
        })
    }
}

/// The names, as texts.
pub(crate) fn names_of(alloc: Global, rights: &[(Str, Rights)]) -> Result<Vals, NoMemory>
    ensures { IfOk result (λ names. names ≡ map name_value rights.now) }
{
    let mut names = Vec::new(alloc);
    for entry in rights {
        names.push(Val::Text(entry.0.copy(alloc)?))?;
    }
    Vals::from_vec(names)
}
