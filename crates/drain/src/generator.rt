//! A small generator of numbers and items.

ghost use Rattle.std.specs.Prelude.{◌<◌};

use worklist::items::Propagation;

/// A linear congruential generator.
#[derive(Drop)]
pub struct Generator {
    state: u64,
}

impl Generator {
    pub fn new(seed: u64) -> Generator {
        Generator { state: seed }
    }

    /// A number below `bound`.
    pub fn below(&mut self, bound: u64) -> u64
        requires { 0 < bound }
        ensures { result < bound }
    {
        self.state = self
            .state
            .wrapping_mul(6364136223846793005)
            .wrapping_add(1442695040888963407);
        (self.state >> 33) % bound
    }

    /// An item out of few enough that some come twice.
    pub fn item(&mut self) -> Propagation {
        let size = self.below(40) as u32;
        let vertex = self.below(30) as u16;
        let level = self.below(8) as u8;
        Propagation {
            size,
            vertex,
            level,
        }
    }
}
