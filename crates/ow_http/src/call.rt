// Requests as what they want done.
ghost use Rattle.std.specs.Prelude.{◌≡◌, ◌↔◌, IsTrue};

use crate::call_kind::CallKind;
use ow_entity::Draft;
use ow_names::FullName;
use ow_value::{NoMemory, Params, PlainData, copied3};
use std::alloc::Global;

/// What a request wants done. What its kind doesn't have is none, false, 0 or empty.
#[derive(Drop)]
pub struct Call {
    /// What is to be done.
    pub kind: CallKind,
    /// The entity that the path names, in the namespace that `_` means.
    pub name: Option<FullName>,
    /// Whether a put may replace the stored entity.
    pub overwrite: bool,
    /// Whether the answer to an invocation waits for its end.
    pub blocking: bool,
    /// Whether the answer to an invocation is its result alone.
    pub result_only: bool,
    /// How many rows of a list are passed over.
    pub skip: u64,
    /// How many rows a list has at most.
    pub limit: u64,
    /// The entity that the body of a put gives.
    pub draft: Option<Draft>,
    /// The parameters that the body of an invocation or a fire gives.
    pub params: Params,
    /// Whether a rule is to be active, by the body that sets its status.
    pub active: Option<bool>,
}

impl Call {
    fn has_options_of(&self, other: &Call) -> bool
        ensures { IsTrue result ↔ ((self.now.kind ≡ other.now.kind) × (self.now.overwrite ≡ other.now.overwrite)
            × (self.now.blocking ≡ other.now.blocking) × (self.now.result_only ≡ other.now.result_only)
            × (self.now.skip ≡ other.now.skip) × (self.now.limit ≡ other.now.limit) × (self.now.active ≡ other.now.active)) }
    {
        self.kind == other.kind
            && self.overwrite == other.overwrite
            && self.blocking == other.blocking
            && self.result_only == other.result_only
            && self.skip == other.skip
            && self.limit == other.limit
            && self.active == other.active
    }
}

impl PlainData for Call {
    fn same(&self, other: &Call) -> bool {
        self.has_options_of(other)
            && self.name.same(&other.name)
            && self.draft.same(&other.draft)
            && self.params.same(&other.params)
    }

    fn copy(&self, alloc: Global) -> Result<Call, NoMemory> {
        let (name, draft, params) = copied3(alloc, &self.name, &self.draft, &self.params)?;
        Ok(Call {
            kind: self.kind,
            name,
            overwrite: self.overwrite,
            blocking: self.blocking,
            result_only: self.result_only,
            skip: self.skip,
            limit: self.limit,
            draft,
            params,
            active: self.active,
        })
    }
}
