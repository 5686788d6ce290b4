// The calls of a device in memory, of which some are to fail.
ghost use Rattle.std.specs.Prelude.{◌≡◌, ◌≤◌, ◌↔◌, ◌+◌, ◌-◌, ◌^◌, min, Contains, IsTrue};
ghost use Rattle.ow_traits.specs.Streams.{Rose};

/// A counter of calls, the numbers of the calls that are to fail, and a count of faults. The first call has the number 0.
#[derive(Drop)]
pub struct Calls {
    /// How many calls there were. The count saturates at the greatest u64.
    pub made: u64,
    /// The numbers of the calls that are to fail.
    pub failing: Vec<u64>,
    /// How many calls failed. The count saturates at the greatest u64.
    pub faults: u64,
}

impl Calls {
    /// No call yet, and no fault.
    pub fn new(failing: Vec<u64>) -> Self
        ensures made { result.made ≡ 0 }
        ensures failing { result.failing ≡ failing }
        ensures faults { result.faults ≡ 0 }
    {
        Calls {
            made: 0,
            failing,
            faults: 0,
        }
    }

    /// Counts a call, and returns whether it is to fail.
    pub fn fails_next(&mut self) -> bool
        ensures listed { IsTrue result ↔ Contains self.old.failing.items self.old.made }
        ensures rose { IsTrue result → Rose self.old.faults self.new.faults }
        ensures faults_grow { self.old.faults ≤ self.new.faults }
        ensures made { self.new.made ≡ min (self.old.made + 1) (2 ^ 64 - 1) }
        ensures failing { self.new.failing ≡ self.old.failing }
    {
        let number = self.made;
        self.made = self.made.saturating_add(1);
        let fails = self.failing.contains(&number);
        if fails {
            self.count_fault();
        }
        fails
    }

    /// Counts a fault. The count saturates at the greatest u64.
    pub fn count_fault(&mut self)
        ensures faults { self.new.faults ≡ min (self.old.faults + 1) (2 ^ 64 - 1) }
        ensures rose { Rose self.old.faults self.new.faults }
        ensures faults_grow { self.old.faults ≤ self.new.faults }
        ensures made { self.new.made ≡ self.old.made }
        ensures failing { self.new.failing ≡ self.old.failing }
    {
        self.faults = self.faults.saturating_add(1);
    }
}
