//! Numbers that look random, and are the same in every run.
ghost use Rattle.std.specs.Prelude.{◌<◌};

// Where a sequence of numbers stands.
#[derive(Drop)]
pub(crate) struct Random {
    state: u64,
}

impl Random {
    // A sequence of its own for each seed.
    pub(crate) fn seeded(seed: u64) -> Random {
        let mut random = Random { state: seed };
        random.step();
        random.step();
        random
    }

    // A number below the limit, from the state's high bits, since its low ones repeat soon.
    pub(crate) fn below(&mut self, limit: usize) -> usize
        requires { 0 < limit }
        ensures { result < limit }
    {
        self.step();
        (self.state >> 32) as usize % limit
    }

    fn step(&mut self) {
        self.state = self
            .state
            .wrapping_mul(6364136223846793005)
            .wrapping_add(1442695040888963407);
    }
}
