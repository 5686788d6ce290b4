// Names of one part, and the first fault of bytes that are no name.
ghost use Rattle.std.specs.Prelude.{◌≡◌, ◌≢◌, ◌↔◌, ◌==◌, [], ◌∷◌, ◌++◌, ◌-◌, IsTrue, Some, None, IfOk, IfErr, MatchResult};
ghost use Rattle.std.specs.Result.{result_err};
ghost use Rattle.ow_value.specs.Value.{text_cmp};
ghost use Rattle.ow_names.specs.Slash.{HasNoSlash};
ghost use Rattle.ow_names.specs.Name.{IsName, IsFirstFault, first_fault, wrong_place, is_first_byte, is_later_byte, may_stand};

use crate::order::order_of_parts;
use crate::refusal::NameRefusal;
use ow_value::{NoMemory, PlainData, Str};
use std::alloc::Global;
use std::cmp::Ordering;
use std::marker::Model;

/// The most bytes of a name.
pub const LONGEST_NAME: usize = 256;

/// A name of one part: what a namespace, a package or an entity in them is called. Its copies share its text.
#[derive(Drop)]
pub struct EntityName {
    text: Str,
}

impl Model for EntityName {
    ghost use Rattle.std.specs.Prelude.{List, ℕ};
    ghost use Rattle.ow_names.specs.Name.{IsName};

    ghost Value = { List ℕ };

    ghost view = { λ a. a.text };

    ghost invariant = { λ a. IsName a.text };
}

/// Whether the bytes are a name, as the OpenWhisk documentation has it: a letter, a digit or `_`, then these, spaces, `@`,
/// `.` and `-`, and no space at the end. Letters are ASCII, and `LONGEST_NAME` bytes are the most.
#[tactic(auto, using(crate::proofs::NameLaws::told))]
pub fn check_name(bytes: &[u8]) -> Result<(), NameRefusal>
    ensures value { result_err result ≡ first_fault bytes.now }
    ensures tells { MatchResult result (λ _. IsName bytes.now) (λ e. IsFirstFault bytes.now e) }
{
    scan(bytes)
}

/// The name with these bytes.
#[tactic(auto, using(crate::proofs::NameLaws::name_if_no_fault))]
pub fn read_name(alloc: Global, bytes: &[u8]) -> Result<EntityName, NameRefusal>
    ensures ok { IfOk result (λ n. n ≡ bytes.now) }
    ensures fault { MatchResult result (λ _. first_fault bytes.now ≡ None)
        (λ e. e ≢ NameRefusal.NoMemory → first_fault bytes.now ≡ Some e) }
    ensures tells { IfErr result (λ e. e ≢ NameRefusal.NoMemory → IsFirstFault bytes.now e) }
{
    check_name(bytes)?;
    let Ok(text) = std::str::from_utf8(bytes) else {
        unreachable!()
    };
    Ok(EntityName {
        text: Str::of(alloc, text)?,
    })
}

impl EntityName {
    /// The text, which is a name.
    pub fn as_str(&self) -> &str
        ensures value { result.now ≡ self.now }
        ensures name { IsName result.now }
    {
        self.text.as_str()
    }

    /// The order of the two as parts of full texts, each followed by a slash.
    pub fn compare_as_part(&self, other: &EntityName) -> Ordering
        ensures order { result ≡ text_cmp (self.now ++ 47 ∷ []) (other.now ++ 47 ∷ []) }
        ensures whole { HasNoSlash self.now }
    {
        order_of_parts(self.as_part(), other.as_part())
    }

    // The bytes, as a part between slashes.
    pub(crate) fn as_part(&self) -> &[u8]
        ensures value { result.now ≡ self.now }
        ensures whole { HasNoSlash result.now }
    {
        self.as_str().as_bytes()
    }
}

impl PlainData for EntityName {
    fn same(&self, other: &EntityName) -> bool {
        self.text.same(&other.text)
    }

    fn copy(&self, alloc: Global) -> Result<EntityName, NoMemory> {
        Ok(EntityName {
            text: self.text.copy(alloc)?,
        })
    }
}

// Looks at each byte once.
fn scan(bytes: &[u8]) -> Result<(), NameRefusal>
    ensures { result_err result ≡ first_fault bytes.now }
{
    if bytes.is_empty() {
        return Err(NameRefusal::Empty);
    }
    if bytes.len() > LONGEST_NAME {
        return Err(NameRefusal::TooLong);
    }
    if let Some(place) = wrong_place(bytes) {
        return Err(NameRefusal::BadChar { place });
    }
    if bytes[bytes.len() - 1] == b' ' {
        return Err(NameRefusal::EndsInSpace);
    }
    Ok(())
}

fn wrong_place(bytes: &[u8]) -> Option<usize>
    ensures { result ≡ wrong_place bytes.now }
{
    bytes
        .iter()
        .enumerate()
        .position(|(i, b)| !may_stand(i, *b))
}

fn may_stand(place: usize, byte: u8) -> bool
    ensures { result ≡ may_stand place byte }
{
    if place == 0 {
        is_first_byte(byte)
    } else {
        is_later_byte(byte)
    }
}

fn is_first_byte(byte: u8) -> bool
    ensures { result ≡ is_first_byte byte }
{
    byte.is_ascii_alphanumeric() || byte == b'_'
}

fn is_later_byte(byte: u8) -> bool
    ensures { result ≡ is_later_byte byte }
{
    is_first_byte(byte) || byte == b' ' || byte == b'@' || byte == b'.' || byte == b'-'
}
