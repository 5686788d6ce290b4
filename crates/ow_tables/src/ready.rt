// Changes that were made ready.
ghost use Rattle.std.specs.Prelude.{◌≡◌};

use ow_entity::Row;
use std::marker::Model;

/// A change that was not refused and has its memory, to be made by `Tables::apply`.
#[derive(Drop)]
pub struct Ready {
    pub(crate) row: Row,
    pub(crate) removes: bool,
}

impl Model for Ready {
    ghost use Rattle.std.specs.Coded.{codes};
    ghost use Rattle.ow_value.specs.Code.{value_code};
    ghost use Rattle.ow_tables.specs.Contents.{Change};

    ghost Value = { Change };

    ghost coded = { Prim.hlevel (codes, value_code) };

    ghost view = { λ a. record { row = a.row; removes = a.removes } };
}

impl Ready {
    /// The row that will be put, or the one that will be taken out.
    pub fn row(&self) -> &Row
        ensures { result.now ≡ self.now.row }
    {
        &self.row
    }

    /// Whether the row will be taken out.
    pub fn removes(&self) -> bool
        ensures { result ≡ self.now.removes }
    {
        self.removes
    }
}
