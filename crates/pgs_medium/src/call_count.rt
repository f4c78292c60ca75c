ghost use Rattle.std.specs.Prelude.{◌≡◌};
ghost use Rattle.pgs_medium.specs.Calls.{one_more};

use pgs_cause::raised;

/// How many calls of a kind were made, and how many of them failed. A call that memory stopped wasn't made.
#[derive(Clone, Copy, Debug)]
pub struct CallCount {
    pub made: u64,
    pub failed: u64,
}

impl CallCount {
    /// No call.
    pub fn none() -> CallCount
        ensures { result ≡ record { made = 0; failed = 0 } }
    {
        CallCount { made: 0, failed: 0 }
    }

    /// The number of the next call. It stays at its last value once it stands there.
    pub fn next(&self) -> u64
        ensures { result ≡ one_more self.now.made }
    {
        raised(self.made)
    }

    /// One more call was answered.
    pub fn answer(&mut self)
        ensures { self.new ≡ record self.old { made = one_more self.old.made } }
    {
        self.made = raised(self.made);
    }

    /// One more call failed.
    pub fn fail(&mut self)
        ensures { self.new ≡ record { made = one_more self.old.made; failed = one_more self.old.failed } }
    {
        self.made = raised(self.made);
        self.failed = raised(self.failed);
    }
}
