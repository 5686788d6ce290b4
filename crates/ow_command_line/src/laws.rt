// Words of the command line, and what they ask for.
ghost use Rattle.std.specs.Prelude.{◌≡◌, ◌∷◌, ℕ, List, Some, true};
ghost use Rattle.ow_value.specs.Decimal.{decimal_of, number_within};
ghost use Rattle.ow_command_line.specs.Laws.{BoundsWorkers, MovesNumbers, NeedsPort, RefusesAgain, RefusesDrills, RefusesServices, RefusesWords, TakesCounts, TakesDays, TakesDeployments, TakesDrills, TakesNumbers, TakesServices, TakesWords, TakesWordsOfDays, TurnsOptions, TurnsTwo, drill};
ghost use Rattle.ow_command_line.specs.Words.{command_of, connections_of, is_value, port_of, workers_of};

/// A day has a table, a store, or both, in any order, each in one word or in two.
pub fn days_are_taken()
    ensures { (f g : List ℕ) → is_value f ≡ true → is_value g ≡ true → TakesDays f g }
{}

/// A service has a port, and perhaps other options: each in one word or in two, before the port or after it.
pub fn services_are_taken()
    ensures { (p w n f g : List ℕ) (at many most : ℕ) → port_of (Some p) ≡ Some at → workers_of (Some w) ≡ Some many → connections_of (Some n) ≡ Some (Some most) → is_value f ≡ true → is_value g ≡ true → TakesServices p w n f g at many most }
{}

/// A service needs a port, and its numbers have bounds.
pub fn services_have_bounds()
    ensures workers { (p w : List ℕ) (at n : ℕ) → port_of (Some p) ≡ Some at → decimal_of w ≡ Some n → BoundsWorkers p w at n }
    ensures port { (words : List (List ℕ)) → NeedsPort words }
    ensures taken { TakesNumbers }
    ensures refused { RefusesServices }
{}

/// Options mean the same in any order.
pub fn options_stand_in_any_order()
    ensures { (word : List ℕ) (words turned : List (List ℕ)) → TurnsTwo words turned → command_of (word ∷ words) ≡ command_of (word ∷ turned) }
{}

/// A drill has two numbers, and a table, a store, or both anywhere around them. The numbers have bounds.
pub fn drills_are_taken()
    ensures taken { (n s f g : List ℕ) (k x : ℕ) → number_within 0 1000000 n ≡ Some k → decimal_of s ≡ Some x → is_value f ≡ true → is_value g ≡ true → TakesDrills n s f g k x }
    ensures counts { TakesCounts }
    ensures refused { RefusesDrills }
{}

/// The numbers of a drill mean the same anywhere among its options, and these mean the same in any order.
pub fn numbers_stand_among_options()
    ensures moved { (words moved : List (List ℕ)) → MovesNumbers words moved → command_of (drill ∷ words) ≡ command_of (drill ∷ moved) }
    ensures turned { (words turned : List (List ℕ)) → TurnsOptions words turned → command_of (drill ∷ words) ≡ command_of (drill ∷ turned) }
{}

/// A deployment takes the options of a day: a table, a store, or both, in any order.
pub fn deployments_are_taken()
    ensures taken { (f g : List ℕ) → is_value f ≡ true → is_value g ≡ true → TakesDeployments f g }
    ensures options { (words : List (List ℕ)) → TakesWordsOfDays words }
{}

/// No option occurs twice.
pub fn options_stand_once()
    ensures { (f g : List ℕ) → is_value f ≡ true → is_value g ≡ true → RefusesAgain f g }
{}

/// Words that are commands, and words that aren't.
pub fn words_are_commands()
    ensures taken { TakesWords }
    ensures refused { RefusesWords }
{}
