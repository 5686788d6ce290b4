// For how many days records are retained.
ghost use Rattle.std.specs.Prelude.{◌≡◌};
ghost use Rattle.ow_value.specs.Decimal.{number_within};
ghost use Rattle.ow_tenant.specs.Days.{AreDays};

use crate::words::number_within;
use std::marker::Model;

/// A number of days that a `retain` row may give.
#[derive(Clone, Copy, PartialEq, Eq, Debug, Drop)]
pub(crate) struct Days {
    number: u32,
}

impl Model for Days {
    ghost use Rattle.std.specs.Prelude.{ℕ};
    ghost use Rattle.ow_tenant.specs.Days.{AreDays};

    ghost Value = { ℕ };

    ghost view = { λ d. d.number };

    ghost invariant = { λ d. AreDays d.number };

    ghost inverse = { λ n. record { number = n } };
}

impl Days {
    /// The number of days, where the text is one that a row may give.
    pub(crate) fn of(text: &[u8]) -> Option<Days>
        ensures { result ≡ number_within 1 3650 text.now }
    {
        let number = number_within(1, 3650, text)?;
        Some(Days { number })
    }

    /// How many days.
    pub(crate) fn get(&self) -> u32
        ensures value { result ≡ self.now }
        ensures within { AreDays result }
    {
        self.number
    }
}
