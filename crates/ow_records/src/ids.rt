// The id of an activation.
ghost use Rattle.std.specs.Prelude.{◌≡◌, ◌↔◌, ◌++◌, IsTrue, IfOk, OnOk};

use crate::digits::{hex_16, hex_number};
use ow_value::{NoMemory, PlainData, Str};
use std::alloc::Global;

/// The number of a namespace, and a count of its activations, of which the first is 1.
#[derive(Clone, Copy, Debug, PartialEq, Eq, Drop)]
pub struct Id {
    /// The number of the namespace.
    pub namespace: u64,
    /// Which of its activations, from 1.
    pub count: u64,
}

impl Id {
    ghost use Rattle.ow_records.specs.Id.{id_of, id_text};

    /// The id of thirty-two hexadecimal digits, of either case.
    #[tactic(auto, unfolding(crate::specs::Id::id_of))]
    pub fn of_text(text: &str) -> Option<Id>
        ensures { result ≡ id_of text.now }
    {
        let digits = text.as_bytes();
        if digits.len() < 16 {
            return None;
        }
        let namespace = hex_number(&digits[..16])?;
        let count = hex_number(&digits[16..])?;
        Some(Id { namespace, count })
    }

    /// Appends thirty-two hexadecimal digits to the bytes. After an error some of the digits may have been appended.
    #[tactic(auto, unfolding(crate::specs::Id::id_text))]
    pub fn push_text(self, bytes: &mut Vec<u8>) -> Result<(), NoMemory>
        ensures { OnOk result (bytes.new.items ≡ bytes.old.items ++ id_text self) }
    {
        bytes.extend_from_slice(&hex_16(self.namespace))?;
        bytes.extend_from_slice(&hex_16(self.count))?;
        Ok(())
    }

    /// Thirty-two hexadecimal digits.
    #[tactic(auto, unfolding(crate::specs::Id::id_text))]
    pub fn text(self, alloc: Global) -> Result<Str, NoMemory>
        ensures { IfOk result (λ s. s ≡ id_text self) }
    {
        let mut text = hex::encode(alloc, self.namespace.to_be_bytes())?;
        let count = hex::encode(alloc, self.count.to_be_bytes())?;
        text.push_str(count.as_str())?;
        Str::from_string(text)
    }
}

impl PlainData for Id {
    fn same(&self, other: &Id) -> bool {
        *self == *other
    }

    fn copy(&self, _alloc: Global) -> Result<Id, NoMemory> {
        Ok(*self)
    }
}
