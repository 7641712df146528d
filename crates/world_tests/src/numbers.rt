//! Numbers that look random, and are the same at each run.

ghost use Rattle.std.specs.Prelude.{◌<◌};

/// A linear congruential generator, with the factor and the step of Knuth's MMIX.
#[derive(Drop)]
pub struct Numbers {
    state: u64,
}

impl Numbers {
    /// The numbers of a seed.
    pub fn new(seed: u64) -> Numbers {
        Numbers { state: seed }
    }

    /// The next number, below this one.
    pub fn below(&mut self, many: u32) -> u32
        requires { 0 < many }
        ensures { result < many }
    {
        self.state = self
            .state
            .wrapping_mul(6_364_136_223_846_793_005)
            .wrapping_add(1_442_695_040_888_963_407);
        // The high bits are the better ones.
        let high = u32::try_from(self.state >> 33).unwrap_or(0);
        high % many
    }
}
