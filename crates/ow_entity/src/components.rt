// The components of a sequence, and how a body lists them.
ghost use Rattle.std.specs.Prelude.{◌≡◌, ◌≢◌, ◌≤◌, ◌++◌, [], ◌∷◌, Ok, Err, OnOk, MatchResult, length};
ghost use Rattle.std.specs.List.{AllByRecursion};
ghost use Rattle.ow_value.specs.Value.{items_of, members_of, object};
ghost use Rattle.ow_value.specs.View.{view};
ghost use Rattle.ow_names.specs.FullName.{IsFullName};
ghost use Rattle.ow_entity.specs.Fit.{IsFitSequence};
ghost use Rattle.ow_entity.specs.Body.{are_texts, components_field, components_in, if_some, name_in, names_in};

use crate::field_name::FieldName;
use crate::refusal::EntityRefusal;
use crate::rule_body::name_of;
use ow_names::{EntityName, FullName, Names};
use ow_value::{NoMemory, Params, PlainData, Val, Vals};
use std::alloc::Global;
use std::marker::Model;

/// The components of a sequence, in their order. There is one at least.
#[derive(Drop)]
pub struct Components {
    names: Names,
}

impl Model for Components {
    ghost use Rattle.std.specs.Prelude.{◌≤◌, List, length};
    ghost use Rattle.ow_names.specs.declared.full.FullName.{FullName};

    ghost Value = { List FullName };

    ghost view = { λ c. c.names };

    ghost invariant = { λ c. 1 ≤ length c.names };
}

impl Components {
    /// The components of these names, or none where there is no name.
    pub fn of(names: Names) -> Result<Components, EntityRefusal>
        ensures { result ≡ if_some names }
    {
        if names.is_empty() {
            return Err(EntityRefusal::OutOfRange {
                name: FieldName::Components,
            });
        }
        Ok(Components { names })
    }

    /// The names, lent.
    pub fn get(&self) -> &Names
        ensures value { result.now ≡ self.now }
        ensures some { 1 ≤ length self.now }
    {
        &self.names
    }

    /// Makes known that each is a full name.
    pub fn known(&self)
        ensures { IsFitSequence self.now }
    {
        known_names(self.get().as_slice());
    }
}

impl PlainData for Components {
    fn same(&self, other: &Components) -> bool {
        self.names.same(&other.names)
    }

    fn copy(&self, alloc: Global) -> Result<Components, NoMemory> {
        Ok(Components {
            names: self.names.copy(alloc)?,
        })
    }
}

fn known_names(names: &[FullName])
    ensures { AllByRecursion IsFullName names.now }
{
    let mut rest = names;
    while let [name, after @ ..] = rest {
        known_name(name);
        rest = after;
    }
}

fn known_name(name: &FullName)
    ensures { IsFullName name.now }
{
    name.namespace.as_str();
    if let Some(package) = &name.package {
        package.as_str();
    }
    name.name.as_str();
}

/// The components that the field of a body lists, for a path of this namespace. It must be there.
pub(crate) fn components_field(
    alloc: Global,
    exec: &Params,
    home: &EntityName,
) -> Result<Components, EntityRefusal>
    ensures { MatchResult result (λ c. components_field home.now (object (members_of exec.now)) ≡ Ok c)
        (λ e. e ≢ EntityRefusal.NoMemory → components_field home.now (object (members_of exec.now)) ≡ Err e) }
{
    match exec.find("components") {
        None => Err(EntityRefusal::MissingField {
            name: FieldName::Components,
        }),
        Some(Val::List(items)) => components_in(alloc, items, home),
        Some(_) => Err(EntityRefusal::WrongType {
            name: FieldName::Components,
        }),
    }
}

fn components_in(
    alloc: Global,
    items: &Vals,
    home: &EntityName,
) -> Result<Components, EntityRefusal>
    ensures { MatchResult result (λ c. components_in home.now (items_of items.now) ≡ Ok c)
        (λ e. e ≢ EntityRefusal.NoMemory → components_in home.now (items_of items.now) ≡ Err e) }
{
    if !are_texts(items) {
        return Err(EntityRefusal::WrongType {
            name: FieldName::Components,
        });
    }
    Components::of(names_in(alloc, items, home)?)
}

fn are_texts(items: &Vals) -> bool
    ensures { result ≡ are_texts (items_of items.now) }
{
    for item in items.items() {
        let Val::Text(_) = item else {
            return false;
        };
    }
    true
}

#[tactic(auto, using(crate::proofs::ComponentLaws::put_next))]
fn names_in(alloc: Global, items: &Vals, home: &EntityName) -> Result<Names, EntityRefusal>
    ensures { MatchResult result (λ ns. names_in home.now (items_of items.now) ≡ Ok ns)
        (λ e. e ≢ EntityRefusal.NoMemory → names_in home.now (items_of items.now) ≡ Err e) }
{
    let mut names = Vec::new(alloc);
    for item in items.items() {
        let name = name_in(alloc, item, home)?;
        put_name(&mut names, name)?;
    }
    Ok(Names::from_vec(names)?)
}

fn put_name(names: &mut Vec<FullName>, name: FullName) -> Result<(), NoMemory>
    ensures { OnOk result (names.new.items ≡ names.old.items ++ name ∷ []) }
{
    names.push(name)?;
    Ok(())
}

fn name_in(alloc: Global, item: &Val, home: &EntityName) -> Result<FullName, EntityRefusal>
    ensures { MatchResult result (λ n. name_in home.now (view item.now) ≡ Ok n)
        (λ e. e ≢ EntityRefusal.NoMemory → name_in home.now (view item.now) ≡ Err e) }
{
    match item {
        Val::Text(text) => name_of(alloc, text.as_str(), home),
        _ => Err(EntityRefusal::WrongType {
            name: FieldName::Components,
        }),
    }
}
