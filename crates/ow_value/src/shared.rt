// Values and lists that are shared by count: a copy is one more owner of the same memory.
ghost use Rattle.std.specs.Prelude.{◌≡◌, ◌↔◌, [], length, IsTrue, IfOk};
ghost use Rattle.ow_value.specs.Shared.{shared};

use crate::memory::NoMemory;
use crate::plain::PlainData;
use std::alloc::Global;
use std::marker::Model;
use std::sync::Arc;

/// A value that its copies share. Contracts see the value itself.
#[derive(Drop)]
pub struct Shared<T: Drop> {
    inner: Arc<T, Global>,
}

/// A list that never changes and that its copies share. Contracts see the list. An empty one takes no memory.
#[derive(Drop)]
pub struct Items<T: Drop> {
    items: Option<Arc<Vec<T>, Global>>,
}

impl<T: Drop> Model for Shared<T> {
    ghost use Rattle.std.specs.Arc.{arc_value};

    ghost Value = { T };

    ghost view = { λ a. arc_value a.inner };
}

impl<T: Drop> Model for Items<T> {
    ghost use Rattle.std.specs.Prelude.{List};
    ghost use Rattle.ow_value.specs.Shared.{shared};

    ghost Value = { List T };

    ghost view = { λ a. shared a.items };
}

impl<T: Drop> Shared<T> {
    /// The value, to be shared.
    pub fn new(alloc: Global, value: T) -> Result<Shared<T>, NoMemory>
        ensures { IfOk result (λ s. s ≡ value) }
    {
        Ok(Shared {
            inner: Arc::new(alloc, value)?,
        })
    }

    /// The value, lent.
    pub fn get(&self) -> &T
        ensures { result.now ≡ self.now }
    {
        &self.inner
    }
}

impl<T: PlainData + Drop> PlainData for Shared<T> {
    fn same(&self, other: &Shared<T>) -> bool {
        self.get().same(other.get())
    }

    fn copy(&self, _alloc: Global) -> Result<Shared<T>, NoMemory> {
        Ok(Shared {
            inner: self.inner.clone()?,
        })
    }
}

impl<T: Drop> Items<T> {
    /// No item. This takes no memory.
    pub fn new() -> Items<T>
        ensures { result ≡ [] }
    {
        Items { items: None }
    }

    /// The items themselves, to be shared, with no copy.
    pub fn from_vec(items: Vec<T>) -> Result<Items<T>, NoMemory>
        ensures { IfOk result (λ r. r ≡ items.items) }
    {
        Ok(Items {
            items: share(items)?,
        })
    }

    /// The items, lent, in their order.
    pub fn as_slice(&self) -> &[T]
        ensures { result.now ≡ self.now }
    {
        held(&self.items)
    }

    /// How many items.
    pub fn len(&self) -> usize
        ensures { result ≡ length self.now }
    {
        self.as_slice().len()
    }

    /// Whether there are none.
    pub fn is_empty(&self) -> bool
        ensures { IsTrue result ↔ (self.now ≡ []) }
    {
        self.as_slice().is_empty()
    }
}

impl<T: PlainData + Drop> PlainData for Items<T> {
    fn same(&self, other: &Items<T>) -> bool {
        same_slices(self.as_slice(), other.as_slice())
    }

    fn copy(&self, _alloc: Global) -> Result<Items<T>, NoMemory> {
        Ok(Items {
            items: again(&self.items)?,
        })
    }
}

/// Whether the items are equal, in their order.
pub fn same_slices<T: PlainData>(a: &[T], b: &[T]) -> bool
    ensures { IsTrue result ↔ (a.now ≡ b.now) }
{
    if a.len() != b.len() {
        return false;
    }
    for i in 0..a.len() {
        if !a[i].same(&b[i]) {
            return false;
        }
    }
    true
}

/// Equal items, in the same order.
pub fn copy_slice<T: PlainData + Drop>(alloc: Global, items: &[T]) -> Result<Vec<T>, NoMemory>
    ensures { IfOk result (λ r. r.items ≡ items.now) }
{
    let mut copied = Vec::with_capacity(alloc, items.len())?;
    for item in items {
        copied.push(item.copy(alloc)?)?;
    }
    Ok(copied)
}

// The items, to be shared.
pub(crate) fn share<T: Drop>(items: Vec<T>) -> Result<Option<Arc<Vec<T>, Global>>, NoMemory>
    ensures { IfOk result (λ r. shared r ≡ items.items) }
{
    if items.is_empty() {
        return Ok(None);
    }
    let alloc = *items.allocator();
    Ok(Some(Arc::new(alloc, items)?))
}

// The items, lent.
pub(crate) fn held<T>(items: &Option<Arc<Vec<T>, Global>>) -> &[T]
    ensures { result.now ≡ shared items.now }
{
    match items {
        None => &[],
        Some(items) => items.as_slice(),
    }
}

// One more owner of the same items.
pub(crate) fn again<T: Drop>(
    items: &Option<Arc<Vec<T>, Global>>,
) -> Result<Option<Arc<Vec<T>, Global>>, NoMemory>
    ensures { IfOk result (λ r. shared r ≡ shared items.now) }
{
    match items {
        None => Ok(None),
        Some(items) => Ok(Some(items.clone()?)),
    }
}
