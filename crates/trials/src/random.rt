// Numbers that look random, by a linear congruence.
ghost use Rattle.std.specs.Prelude.{◌≡◌, ◌/◌, ◌%◌, max};
ghost use Rattle.trials.specs.Congruence.{following};

// `state` is the number that was given last.
#[derive(Drop)]
pub struct Random {
    pub state: u32,
}

impl Random {
    // The next number.
    pub fn number(&mut self) -> u32
        ensures value { result ≡ following self.old.state }
        ensures state { self.new.state ≡ following self.old.state }
    {
        self.state = self.state.wrapping_mul(1664525).wrapping_add(1013904223);
        self.state
    }

    // A number below n, or 0 if n is 0, from the higher bits of the next one.
    pub fn below(&mut self, n: u32) -> u32
        ensures value { result ≡ following self.old.state / 256 % max n 1 }
        ensures state { self.new.state ≡ following self.old.state }
    {
        (self.number() >> 8) % n.max(1)
    }
}
