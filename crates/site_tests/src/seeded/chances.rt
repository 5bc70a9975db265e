//! Random numbers by a seed.
ghost use Rattle.std.specs.Prelude.{◌<◌};

/// Random numbers, the same ones for the same seed.
#[derive(Drop)]
pub struct Chances {
    state: u64,
}

impl Chances {
    /// Those of a seed.
    pub fn new(seed: u64) -> Chances {
        Chances {
            state: seed.wrapping_mul(0x9E37_79B9_7F4A_7C15) | 1,
        }
    }

    /// The next one.
    fn next(&mut self) -> u64 {
        let first = self.state ^ (self.state >> 12);
        let second = first ^ (first << 25);
        let third = second ^ (second >> 27);
        self.state = third;
        third.wrapping_mul(0x2545_F491_4F6C_DD1D)
    }

    /// One below a limit.
    pub fn below(&mut self, limit: u64) -> u64
        requires { 0 < limit }
        ensures { result < limit }
    {
        (self.next() >> 11) % limit
    }
}
