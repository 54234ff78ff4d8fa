// A console in words: state, wanted, answered, ts and owner of the best tag, value, mark and life.
ghost use Rattle.std.specs.Prelude.{◌≡◌};
ghost use Rattle.layout.specs.Layout.{state_of, state_number, console_from, console_fields, ConsoleFits};
ghost use Rattle.layout.specs.Wide.{console_wide};
ghost use Rattle.layout.specs.Standing.{console_stands};

use crate::CONSOLE_WORDS;
use crate::in_words::{InWords, LAST_MARK};
use crate::tags::{low_half, owner_word, tag_of};
use parts::{Console, Kind, State};

// The last number of a state, of a set and of half a word.
const LAST_STATE: u32 = 5;

const LAST_SET: u32 = 255;

const LAST_HALF: u32 = 65535;

impl InWords<CONSOLE_WORDS> for Console {
    ghost fits = { ConsoleFits };

    ghost from = { console_from };

    ghost stands = { console_stands };

    ghost fields = { console_fields };

    ghost wide = { console_wide };

    #[tactic(auto, unfolding(crate::specs::Layout::console_from))]
    fn from_words(words: &[u32; CONSOLE_WORDS]) -> Console {
        let [state, wanted, answered, ts, owner, value, alike, life] = *words;
        Console {
            state: state_of(state),
            wanted,
            // The word's lowest byte: std has no From of u32 for u8.
            answered: answered.to_le_bytes()[0],
            best: tag_of(ts, owner),
            value,
            alike: alike != 0,
            life: low_half(life),
        }
    }

    #[tactic(auto, unfolding(crate::specs::Standing::console_stands))]
    fn stand(words: &[u32; CONSOLE_WORDS]) -> bool {
        words[0] <= LAST_STATE
            && words[2] <= LAST_SET
            && words[6] <= LAST_MARK
            && words[7] <= LAST_HALF
    }

    #[tactic(auto, unfolding(crate::specs::Layout::console_fields))]
    fn to_words(self) -> [u32; CONSOLE_WORDS] {
        [
            state_number(self.state),
            self.wanted,
            u32::from(self.answered),
            self.best.ts,
            owner_word(self.best),
            self.value,
            u32::from(self.alike),
            u32::from(self.life),
        ]
    }
}

// Functions and no From: neither a state nor u32 is a type of this crate.
#[tactic(auto, unfolding(crate::specs::Layout::state_of))]
fn state_of(number: u32) -> State
    ensures { result ≡ state_of number }
{
    match number {
        0 => State::Idle,
        1 => State::Asking(Kind::Read),
        2 => State::Asking(Kind::Write),
        3 => State::Telling(Kind::Read),
        4 => State::Telling(Kind::Write),
        _ => State::Down,
    }
}

#[tactic(auto, unfolding(crate::specs::Layout::state_number))]
fn state_number(state: State) -> u32
    ensures { result ≡ state_number state }
{
    match state {
        State::Idle => 0,
        State::Asking(Kind::Read) => 1,
        State::Asking(Kind::Write) => 2,
        State::Telling(Kind::Read) => 3,
        State::Telling(Kind::Write) => 4,
        State::Down => 5,
    }
}
