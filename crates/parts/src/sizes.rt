// How many answers end a phase.
ghost use Rattle.std.specs.Prelude.{◌≡◌};
ghost use Rattle.parts.specs.Sizes.{majority, ask_size, tell_size};

use crate::Setup;

// Document 01's q: a majority (quorum) of n nodes.
#[tactic(auto, unfolding(crate::specs::Sizes::majority))]
pub fn majority_of(n: u32) -> u32
    ensures { result ≡ majority n }
{
    n / 2 + 1
}

impl Setup {
    // The count of answers at which asking ends. It and the next have one body: each keeps the name of its own definition.
    #[tactic(auto, unfolding(crate::specs::Sizes::ask_size))]
    pub fn ask_size(self) -> u32
        ensures { result ≡ ask_size self }
    {
        majority_of(self.n)
    }

    // The count of answers at which telling finishes.
    #[tactic(auto, unfolding(crate::specs::Sizes::tell_size))]
    pub fn tell_size(self) -> u32
        ensures { result ≡ tell_size self }
    {
        majority_of(self.n)
    }
}
