//! The numbers that a sweep draws.

ghost use Rattle.std.specs.Prelude.{◌≡◌};
ghost use Rattle.sweep_kernel.specs.Numbers.{next, state_at};

/// The generator of a seed, so many steps on.
#[derive(Clone, Copy)]
pub struct Draw {
    pub seed: u64,
    pub place: u64,
    pub state: u64,
    pub ghost steps: { state ≡ state_at seed place },
}

// The state after a state.
#[tactic(auto, unfolding(crate::specs::Numbers::next))]
fn next(state: u64) -> u64
    ensures { result ≡ next state }
{
    ((6364136223846793005 * state as u128 + 1442695040888963407) % (1 << 64)) as u64
}

impl Draw {
    ghost use Rattle.std.specs.Prelude.{◌≡◌, ◌+◌, ◌<◌, ◌^◌};
    ghost use Rattle.sweep_kernel.specs.Numbers.{random};

    /// The generator before its first step.
    #[tactic(auto, unfolding(crate::specs::Numbers::state_at))]
    pub fn new(seed: u64) -> Draw
        ensures seed { result.seed ≡ seed }
        ensures place { result.place ≡ 0 }
    {
        Draw {
            seed,
            place: 0,
            state: seed,
        }
    }

    /// The generator one step on.
    #[tactic(auto, using(crate::proofs::Draws::state_more))]
    pub fn after(self) -> Draw
        requires { self.place < 2 ^ 32 }
        ensures seed { result.seed ≡ self.seed }
        ensures place { result.place ≡ self.place + 1 }
    {
        Draw {
            seed: self.seed,
            place: self.place + 1,
            state: next(self.state),
        }
    }

    /// The number at this place.
    pub fn number(self) -> u64
        ensures value { result ≡ random self.seed self.place }
        ensures small { result < 2 ^ 16 }
    {
        self.state >> 48
    }
}
