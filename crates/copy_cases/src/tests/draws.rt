/// Numbers that follow from a seed.
#[derive(Clone, Copy)]
pub struct Draws {
    state: u64,
}

impl Draws {
    pub fn new(seed: u64) -> Draws {
        Draws { state: seed }
    }

    /// A number below a count, which is not 0.
    pub fn below(&mut self, count: u64) -> u64 {
        self.state = self
            .state
            .wrapping_mul(6_364_136_223_846_793_005)
            .wrapping_add(1_442_695_040_888_963_407);
        (self.state >> 33) % count.max(1)
    }

    /// True once in so many times.
    pub fn is_rare(&mut self, count: u64) -> bool {
        self.below(count) == 0
    }
}
