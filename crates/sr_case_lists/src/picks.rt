/// Numbers that look random.
#[derive(Clone, Copy)]
pub struct Picks {
    state: u32,
}

impl Picks {
    pub fn of(seed: u32) -> Picks {
        Picks { state: seed }
    }

    /// A number below `count`, or 0.
    pub fn below(&mut self, count: u32) -> u32 {
        self.state = self
            .state
            .wrapping_mul(1_664_525)
            .wrapping_add(1_013_904_223);
        (self.state >> 16).checked_rem(count).unwrap_or(0)
    }

    pub fn int_below(&mut self, count: u32) -> i32 {
        i32::try_from(self.below(count)).unwrap_or(0)
    }
}
