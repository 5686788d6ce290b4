// Integers of 64 bits, with a sign or without.
ghost use Rattle.std.specs.Prelude.{◌≡◌, ℤ, pos, ◌∷◌, [], ◌++◌, OnOk};
ghost use Rattle.json.specs.Token.{number};
ghost use Rattle.serde_json.specs.Find.{of_integer};
ghost use Rattle.serde_json.specs.Written.{number_text};

use json::Writer;
use std::alloc::AllocError;
use std::marker::Model;

/// An integer that an i64 or a u64 holds.
#[derive(Clone, Copy, PartialEq, Eq, Debug, Drop)]
pub struct Whole {
    n: i128,
}

impl Model for Whole {
    ghost use Rattle.std.specs.Prelude.{ℤ};
    ghost use Rattle.ow_value.specs.Whole.{IsWhole};

    ghost Value = { ℤ };

    ghost view = { λ a. a.n };

    ghost inverse = { λ z. record { n = z } };

    ghost invariant = { λ a. IsWhole a.n };
}

impl Whole {
    ghost use Rattle.ow_value.specs.Whole.{IsWhole, natural};

    /// An integer that is not negative.
    pub fn of_u64(n: u64) -> Whole
        ensures { result ≡ pos n }
    {
        Whole { n: n as i128 }
    }

    /// An integer with a sign.
    pub fn of_i64(n: i64) -> Whole
        ensures { result ≡ n }
    {
        Whole { n: n as i128 }
    }

    /// The integer.
    pub fn get(self) -> i128
        ensures value { result ≡ self }
        ensures range { IsWhole result }
    {
        self.n
    }

    /// The number, unless it is negative.
    pub fn as_u64(self) -> Option<u64>
        ensures { result ≡ natural self }
    {
        let n = self.get();
        if n < 0 { None } else { Some(n as u64) }
    }

    pub(crate) fn write(self, out: &mut Writer) -> Result<(), AllocError>
        ensures ok { OnOk result (out.new.tokens ≡ out.old.tokens ++ number (number_text (of_integer self)) ∷ []) }
        ensures before { out.new.before ≡ out.old.before }
    {
        let n = self.get();
        if n < 0 {
            out.i64(n as i64)
        } else {
            out.u64(n as u64)
        }
    }
}
