// The parameters and the annotations of entities.
ghost use Rattle.std.specs.Prelude.{◌≡◌, [], IfOk};
ghost use Rattle.ow_value.specs.Value.{AreParams};
ghost use Rattle.ow_entity.specs.Pairs.{HasPairs, measured_pairs};
ghost use Rattle.ow_entity.specs.Fit.{IsFitPairs};

use crate::refusal::EntityRefusal;
use ow_value::{MEGABYTE, NoMemory, Params, PlainData, Val, size};
use std::alloc::Global;
use std::marker::Model;

/// The parameters or the annotations of an entity, which have at most 1 MB as an object.
#[derive(Drop)]
pub struct EntityParams {
    params: Params,
}

impl Model for EntityParams {
    ghost use Rattle.std.specs.Prelude.{List, ℕ};
    ghost use Rattle.std.specs.Coded.{coded_list, coded×, coded_ℕ};
    ghost use Rattle.ow_value.specs.Value.{V};
    ghost use Rattle.ow_value.specs.Code.{value_code};
    ghost use Rattle.ow_entity.specs.Fit.{IsFitPairs};

    ghost Value = { List (List ℕ × V) };

    ghost coded = { coded_list (coded× (coded_list coded_ℕ) value_code) };

    ghost view = { λ a. a.params };

    ghost invariant = { λ a. IsFitPairs a.params };
}

impl EntityParams {
    /// None. This takes no memory.
    pub fn new() -> EntityParams
        ensures { result ≡ [] }
    {
        EntityParams {
            params: Params::new(),
        }
    }

    /// These, where they are not too large.
    pub fn of(params: Params) -> Result<EntityParams, EntityRefusal>
        ensures { result ≡ measured_pairs params }
    {
        Ok(EntityParams {
            params: checked(params)?,
        })
    }

    /// These, lent.
    pub fn get(&self) -> &Params
        ensures value { result.now ≡ self.now }
        ensures rise { AreParams self.now }
        ensures fits { IsFitPairs self.now }
    {
        self.params.pairs();
        &self.params
    }
}

impl PlainData for EntityParams {
    fn same(&self, other: &EntityParams) -> bool {
        self.params.same(&other.params)
    }

    fn copy(&self, alloc: Global) -> Result<EntityParams, NoMemory> {
        Ok(EntityParams {
            params: self.params.copy(alloc)?,
        })
    }
}

fn checked(params: Params) -> Result<Params, EntityRefusal>
    ensures value { result ≡ measured_pairs params }
    ensures fits { IfOk result IsFitPairs }
{
    let whole = Val::Object(params);
    if size(&whole) > MEGABYTE {
        return Err(EntityRefusal::TooLarge);
    }
    Ok(params_of(whole))
}

fn params_of(whole: Val) -> Params
    requires { HasPairs whole }
    ensures { Val.Object result ≡ whole }
{
    match whole {
        Val::Object(params) => params,
        _ => unreachable!(),
    }
}
