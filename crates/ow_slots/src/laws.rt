// What holds of keys.
ghost use Rattle.std.specs.Prelude.{◌≡◌, ◌↔◌, true};
ghost use Rattle.ow_slots.specs.declared.keys.Key.{Key};
ghost use Rattle.ow_slots.specs.Key.{same_key};

/// The word for equal keys says that they are equal.
pub fn same_keys_are_equal()
    ensures { (a b : Key) → (same_key a b ≡ true) ↔ (a ≡ b) }
{}
