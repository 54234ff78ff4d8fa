// The refusals.
ghost use Rattle.std.specs.Prelude.{◌≡◌, true, false, MatchResult, get_or};
ghost use Rattle.decisions.specs.declared.refusals.Refusal.TheVariants.{Other};
ghost use Rattle.decisions.specs.Refusals.{number_of, refusal_of};

// Why a step is refused. Document 01's questions have 1 to 10: an answer's refusal is that of the first question answered
// no. Those of a line that is no step (document 02, Paper 1) come before all of them.
#[derive(Clone, Copy, Debug, PartialEq, Eq)]
pub enum Refusal {
    NotWellFormed,
    BadNodeCount,
    BadConsoleCount,
    NoSuchConsole,
    NoSuchNode,
    ConsoleIsDown,
    ConsoleBusy,
    NoFrame,
    NodeIsDown,
    TsUsedUp,
    NotThreeFields,
    NoSuchVerb,
    LineTooLong,
    // Node up's own (document 02, Paper 2).
    NodeIsUp,
    // Restart's own (document 02, Paper 7).
    ConsoleIsUp,
    LivesUsedUp,
    // Those of a shift's record (document 02, Paper 10).
    TooManyRecords,
    UnsoundRecord,
    // A number that none of these has. No step says it: a caller may refuse with any number (board, Answer::refused).
    Other(u32),
}

impl From<Refusal> for u32 {
    ghost from_gives = { λ refusal number. number ≡ number_of refusal };

    // The number that a refusal is written as.
    fn from(refusal: Refusal) -> u32 {
        match refusal {
            Refusal::NotWellFormed => 1,
            Refusal::BadNodeCount => 2,
            Refusal::BadConsoleCount => 3,
            Refusal::NoSuchConsole => 4,
            Refusal::NoSuchNode => 5,
            Refusal::ConsoleIsDown => 6,
            Refusal::ConsoleBusy => 7,
            Refusal::NoFrame => 8,
            Refusal::NodeIsDown => 9,
            Refusal::TsUsedUp => 10,
            Refusal::NotThreeFields => 11,
            Refusal::NoSuchVerb => 12,
            Refusal::LineTooLong => 13,
            Refusal::NodeIsUp => 14,
            Refusal::ConsoleIsUp => 15,
            Refusal::LivesUsedUp => 16,
            Refusal::TooManyRecords => 17,
            Refusal::UnsoundRecord => 18,
            Refusal::Other(number) => number,
        }
    }
}

// The refusals in the order of their numbers, from 0 on, which is none of the papers'.
const NUMBERED: [Refusal; 19] = [
    Refusal::Other(0),
    Refusal::NotWellFormed,
    Refusal::BadNodeCount,
    Refusal::BadConsoleCount,
    Refusal::NoSuchConsole,
    Refusal::NoSuchNode,
    Refusal::ConsoleIsDown,
    Refusal::ConsoleBusy,
    Refusal::NoFrame,
    Refusal::NodeIsDown,
    Refusal::TsUsedUp,
    Refusal::NotThreeFields,
    Refusal::NoSuchVerb,
    Refusal::LineTooLong,
    Refusal::NodeIsUp,
    Refusal::ConsoleIsUp,
    Refusal::LivesUsedUp,
    Refusal::TooManyRecords,
    Refusal::UnsoundRecord,
];

// The refusal at this number in the list. (The cast: parts/cells.rt.)
fn refusal_at(list: &[Refusal], number: u32) -> Refusal
    ensures { result ≡ get_or list.now number (Other number) }
{
    list.get(number as usize)
        .copied()
        .unwrap_or(Refusal::Other(number))
}

impl From<u32> for Refusal {
    ghost from_gives = { λ number refusal. (refusal ≡ refusal_of number) × (number_of refusal ≡ number) };

    // The refusal that is written as this number.
    fn from(number: u32) -> Refusal {
        refusal_at(&NUMBERED, number)
    }
}

impl Refusal {
    // The refusal, unless its question is answered yes.
    pub fn unless(self, yes: bool) -> Result<(), Refusal>
        ensures { MatchResult result (λ _. yes ≡ true) (λ refusal. (yes ≡ false) × (refusal ≡ self)) }
    {
        if yes { Ok(()) } else { Err(self) }
    }
}
