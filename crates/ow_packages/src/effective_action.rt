// What a name of an action calls.

use ow_entity::Action;
use ow_names::FullName;
use ow_value::{NoMemory, Params, PlainData, Shared};
use std::alloc::Global;

/// What a name of an action calls.
#[derive(Drop)]
pub struct Effective {
    /// The stored action that runs.
    pub action: Shared<Action>,
    /// Its parameters, over those of the binding and of the package.
    pub params: Params,
    /// The binding that the name goes through, if any.
    pub binding: Option<FullName>,
}

impl PlainData for Effective {
    fn same(&self, other: &Effective) -> bool {
        self.action.same(&other.action)
            && self.params.same(&other.params)
            && self.binding.same(&other.binding)
    }

    fn copy(&self, alloc: Global) -> Result<Effective, NoMemory> {
        let action = self.action.copy(alloc)?;
        let params = self.params.copy(alloc)?;
        let binding = self.binding.copy(alloc)?;
        Ok(Effective {
            action,
            params,
            binding,
        })
    }
}
