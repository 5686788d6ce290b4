// What goes through a whole value: how deep it nests, whether two are equal, a copy.
ghost use Rattle.std.specs.Prelude.{◌≡◌, ◌↔◌, ◌-◌, ◌^◌, min, IsTrue, IfOk};
ghost use Rattle.ow_value.specs.Value.{depth, items_depth, members_depth, items_of, members_of};
ghost use Rattle.ow_value.specs.Json.{IsValue};
ghost use Rattle.ow_value.specs.View.{view};

use crate::memory::NoMemory;
use crate::plain::PlainData;
use crate::shared::{self, held};
use crate::val::{Pair, Params, Val, Vals};
use std::alloc::Global;

/// Makes known what each value keeps: its integers have 64 bits, its texts are UTF-8 and the names of each object rise.
/// It does nothing else.
#[inline(always)]
pub fn known(v: &Val)
    ensures { IsValue (view v.now) }
{
    match v {
        Val::Null | Val::Bool(_) => {}
        Val::Int(n) => {
            let _ = n.get();
        }
        Val::Text(s) => {
            let _ = s.as_str();
        }
        Val::List(vs) => {
            let _ = vs.items();
        }
        Val::Object(ps) => {
            let _ = ps.pairs();
        }
    }
}

/// How deep lists and objects nest. Of a value that is neither this is 0. More than the greatest u32 counts as that.
#[cycle(deep)]
pub fn depth(v: &Val) -> u32
    ensures { result ≡ min (depth (view v.now)) (2 ^ 32 - 1) }
{
    match v {
        Val::List(vs) => deepest_item(vs).saturating_add(1),
        Val::Object(ps) => deepest_member(ps).saturating_add(1),
        _ => 0,
    }
}

#[cycle(deep)]
fn deepest_item(vs: &Vals) -> u32
    ensures { result ≡ min (items_depth (items_of vs.now)) (2 ^ 32 - 1) }
{
    let mut deepest = 0;
    for v in held(&vs.items) {
        deepest = depth(v).max(deepest);
    }
    deepest
}

#[cycle(deep)]
fn deepest_member(ps: &Params) -> u32
    ensures { result ≡ min (members_depth (members_of ps.now)) (2 ^ 32 - 1) }
{
    let mut deepest = 0;
    for p in held(&ps.pairs) {
        deepest = depth(&p.value).max(deepest);
    }
    deepest
}

/// Whether two values are equal.
#[cycle(alike)]
pub fn same(a: &Val, b: &Val) -> bool
    ensures { IsTrue result ↔ (a.now ≡ b.now) }
{
    match (a, b) {
        (Val::Null, Val::Null) => true,
        (Val::Bool(x), Val::Bool(y)) => *x == *y,
        (Val::Int(x), Val::Int(y)) => *x == *y,
        (Val::Text(x), Val::Text(y)) => x.same(y),
        (Val::List(xs), Val::List(ys)) => xs.is_same(ys),
        (Val::Object(ps), Val::Object(qs)) => ps.is_same(qs),
        _ => false,
    }
}

impl Vals {
    // Whether the items are equal, in their order.
    #[cycle(alike)]
    pub(crate) fn is_same(&self, other: &Vals) -> bool
        ensures { IsTrue result ↔ (self.now ≡ other.now) }
    {
        let xs = held(&self.items);
        let ys = held(&other.items);
        if xs.len() != ys.len() {
            return false;
        }
        for i in 0..xs.len() {
            if !same(&xs[i], &ys[i]) {
                return false;
            }
        }
        true
    }

    // The same items, which both share.
    pub(crate) fn again(&self) -> Result<Vals, NoMemory>
        ensures { IfOk result (λ ws. ws ≡ self.now) }
    {
        Ok(Vals {
            items: shared::again(&self.items)?,
        })
    }
}

impl Params {
    // Whether the names are the same, with equal values.
    #[cycle(alike)]
    pub(crate) fn is_same(&self, other: &Params) -> bool
        ensures { IsTrue result ↔ (self.now ≡ other.now) }
    {
        let xs = held(&self.pairs);
        let ys = held(&other.pairs);
        if xs.len() != ys.len() {
            return false;
        }
        for i in 0..xs.len() {
            if !xs[i].is_same(&ys[i]) {
                return false;
            }
        }
        true
    }

    // The same members, which both share.
    pub(crate) fn again(&self) -> Result<Params, NoMemory>
        ensures { IfOk result (λ qs. qs ≡ self.now) }
    {
        Ok(Params {
            pairs: shared::again(&self.pairs)?,
        })
    }
}

impl Pair {
    // Whether the names and the values are equal.
    #[cycle(alike)]
    fn is_same(&self, other: &Pair) -> bool
        ensures { IsTrue result ↔ (self.now ≡ other.now) }
    {
        self.name.same(&other.name) && same(&self.value, &other.value)
    }

    // The same name, with an equal value.
    pub(crate) fn again(&self) -> Result<Pair, NoMemory>
        ensures { IfOk result (λ q. q ≡ self.now) }
    {
        let name = self.name.again()?;
        let value = again(&self.value)?;
        Ok(Pair { name, value })
    }
}

/// An equal value, which shares its texts, lists and objects.
pub fn copy(_alloc: Global, v: &Val) -> Result<Val, NoMemory>
    ensures { IfOk result (λ w. w ≡ v.now) }
{
    again(v)
}

fn again(v: &Val) -> Result<Val, NoMemory>
    ensures { IfOk result (λ w. w ≡ v.now) }
{
    match v {
        Val::Null => Ok(Val::Null),
        Val::Bool(b) => Ok(Val::Bool(*b)),
        Val::Int(n) => Ok(Val::Int(*n)),
        Val::Text(s) => Ok(Val::Text(s.again()?)),
        Val::List(vs) => Ok(Val::List(vs.again()?)),
        Val::Object(ps) => Ok(Val::Object(ps.again()?)),
    }
}
