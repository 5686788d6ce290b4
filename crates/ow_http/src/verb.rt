// The methods of requests.
ghost use Rattle.std.specs.Prelude.{◌≡◌};

/// A method that some route takes (RFC 9110, section 9, and RFC 5789 for PATCH).
#[derive(Clone, Copy, PartialEq, Eq, Debug, Drop)]
pub enum Verb {
    /// `GET`, to read.
    Get,
    /// `PUT`, to make or replace.
    Put,
    /// `POST`, to start something or to set a state.
    Post,
    /// `DELETE`, to remove.
    Delete,
    /// `PATCH`, which web actions alone take.
    Patch,
    /// `OPTIONS`, which web actions alone take.
    Options,
}

impl Verb {
    ghost use Rattle.ow_http.specs.Verb.{verb_of};

    /// The verb of a method's name. Upper and lower case differ.
    #[tactic(auto, unfolding(crate::specs::Verb::verb_of))]
    pub fn of(method: &[u8]) -> Option<Verb>
        ensures { result ≡ verb_of method.now }
    {
        if method == b"GET".as_slice() {
            Some(Verb::Get)
        } else if method == b"PUT".as_slice() {
            Some(Verb::Put)
        } else if method == b"POST".as_slice() {
            Some(Verb::Post)
        } else if method == b"DELETE".as_slice() {
            Some(Verb::Delete)
        } else if method == b"PATCH".as_slice() {
            Some(Verb::Patch)
        } else if method == b"OPTIONS".as_slice() {
            Some(Verb::Options)
        } else {
            None
        }
    }
}
