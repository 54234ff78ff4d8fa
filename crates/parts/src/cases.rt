// The cases of a release, of an operation's kind, of a console's state and of a frame.
ghost use Rattle.std.specs.Prelude.{◌≡◌};
ghost use Rattle.parts.specs.Parts.{is_nothing, goes_to_node, is_idle, is_asking, is_telling, is_up, is_write, writes, to_telling, is_two};

use crate::{Frame, Kind, Release, State};

impl Release {
    pub fn is_two(self) -> bool
        ensures { result ≡ is_two self }
    {
        matches!(self, Release::Two)
    }
}

impl Kind {
    pub fn is_write(self) -> bool
        ensures { result ≡ is_write self }
    {
        matches!(self, Kind::Write)
    }
}

impl State {
    pub fn is_idle(self) -> bool
        ensures { result ≡ is_idle self }
    {
        matches!(self, State::Idle)
    }

    pub fn is_asking(self) -> bool
        ensures { result ≡ is_asking self }
    {
        matches!(self, State::Asking(_))
    }

    pub fn is_telling(self) -> bool
        ensures { result ≡ is_telling self }
    {
        matches!(self, State::Telling(_))
    }

    pub fn is_up(self) -> bool
        ensures { result ≡ is_up self }
    {
        !matches!(self, State::Down)
    }

    // Whether the console's operation is a write.
    pub fn is_writing(self) -> bool
        ensures { result ≡ writes self }
    {
        matches!(
            self,
            State::Asking(Kind::Write) | State::Telling(Kind::Write)
        )
    }

    // The same operation, telling.
    pub fn to_telling(self) -> State
        ensures { result ≡ to_telling self }
    {
        match self {
            State::Asking(kind) => State::Telling(kind),
            _ => self,
        }
    }
}

impl Frame {
    pub fn is_nothing(self) -> bool
        ensures { result ≡ is_nothing self }
    {
        matches!(self, Frame::Nothing)
    }

    // Whether it goes to the node, as ask and put do, and not to the console.
    pub fn goes_to_node(self) -> bool
        ensures { result ≡ goes_to_node self }
    {
        matches!(self, Frame::Ask | Frame::Put(_, _))
    }
}
