//! Numbers that are drawn by a fixed rule, the same at each run.
ghost use Rattle.std.specs.Prelude.{◌<◌};

/// Numbers that are drawn one after the other.
#[derive(Clone, Copy)]
pub struct Draw {
    state: u64,
}

impl Draw {
    /// The next number, which is below the bound.
    pub fn below(&mut self, bound: u32) -> u32
        requires { 0 < bound }
        ensures { result < bound }
    {
        self.state = self
            .state
            .wrapping_mul(6_364_136_223_846_793_005)
            .wrapping_add(1_442_695_040_888_963_407);
        (self.state >> 33) as u32 % bound
    }
}

/// What is drawn for a number.
pub fn draw_for(number: u32) -> Draw {
    let mut draw = Draw {
        state: u64::from(number),
    };
    let _far_from_its_neighbours = draw.below(2);
    draw
}
