// Pseudo-random numbers: a linear congruential generator, the same numbers in each run.
ghost use Rattle.std.specs.Prelude.{◌-◌, ◌≤◌};

#[derive(Drop)]
pub struct Numbers {
    state: u64,
}

impl Numbers {
    pub fn new(seed: u64) -> Numbers {
        Numbers { state: seed }
    }

    // The next number, below n; 0 if n is 0.
    pub fn below(&mut self, n: u64) -> u64
        ensures { result ≤ n - 1 }
    {
        self.state = self
            .state
            .wrapping_mul(6364136223846793005)
            .wrapping_add(1442695040888963407);
        (self.state >> 33).checked_rem(n).unwrap_or(0)
    }

    // The label of one of some units.
    pub fn label(&mut self, units: u64) -> usize {
        self.below(units) as usize + 1
    }
}
