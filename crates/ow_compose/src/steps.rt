// What a composite does next.

use ow_records::Response;
use ow_value::{Params, Str};

/// What a composite does next.
#[derive(Drop)]
pub enum Step {
    /// It calls a component.
    Named {
        /// By which the component is found; it may be no name.
        text: Str,
        /// What is given to the component.
        params: Params,
    },
    /// A conductor runs its own code.
    Conductor {
        /// With what it is run, its own parameters among them.
        params: Params,
    },
    /// It ends.
    Done {
        /// What it answers.
        response: Response,
    },
}
