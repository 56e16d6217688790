ghost use Rattle.std.specs.Prelude.{◌≡◌, ◌/◌, ◌^◌, ◌<◌};
ghost use Rattle.cht_load.specs.Draws.{next};

// The state of a linear congruential generator.
#[derive(Drop)]
pub(crate) struct Draws {
    pub(crate) state: u64,
}

impl Draws {
    // The next number drawn: the high half of the new state.
    pub(crate) fn draw(&mut self) -> u64
        ensures moved { self.new.state ≡ next self.old.state }
        ensures value { result ≡ self.new.state / 2 ^ 32 }
        ensures small { result < 2 ^ 32 }
    {
        self.state = self
            .state
            .wrapping_mul(6364136223846793005)
            .wrapping_add(1442695040888963407);
        self.state >> 32
    }
}
