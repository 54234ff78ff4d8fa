// The consoles of a board: an idle one, and reading one.
ghost use Rattle.std.specs.Prelude.{◌≡◌};
ghost use Rattle.parts.specs.Parts.{console_in};

use crate::{CONSOLES, Console, ConsoleId, State, Tag};

impl Console {
    // A console of a fresh board: idle, with nothing of an operation.
    pub const IDLE: Console = Console {
        state: State::Idle,
        wanted: 0,
        answered: 0,
        best: Tag::ZERO,
        value: 0,
        alike: false,
        life: 0,
    };
}

// Console c; from 8 on an idle one. (The cast: cells.rt.)
#[tactic(auto, unfolding(crate::specs::Parts::console_in))]
pub fn console_in(consoles: &[Console; CONSOLES], c: ConsoleId) -> Console
    ensures { result ≡ console_in consoles.now c.0 }
{
    consoles.get(c.0 as usize).copied().unwrap_or(Console::IDLE)
}
