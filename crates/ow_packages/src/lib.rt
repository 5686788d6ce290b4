#![tactic(auto)]

//! What a name of an action calls: the action, also through a binding, and the parameters that it is called with. Rows
//! are looked up by name and kind alone, so they may be stored in any way.
mod access;
mod behind;
mod binding;
mod effective_action;
mod fixed;
mod refusal;

pub use access::{is_shared, lying_in, package_of, reached_package};
pub use behind::effective;
pub use binding::check_binding;
pub use effective_action::Effective;
pub use fixed::{check_override, fixed_names};
pub use refusal::PackageRefusal;
