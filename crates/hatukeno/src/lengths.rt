// Whether what is lent to a call is long enough.
ghost use Rattle.std.specs.Prelude.{◌≡◌, Err};
ghost use Rattle.hatukeno.specs.Calls.{returned_by};
ghost use Rattle.hatukeno.specs.Lists.{list_short_by};

use layout::BOARD_WORDS;

// The words of an answer, and of a step in a list.
pub(crate) const ANSWER_WORDS: usize = 7;

pub(crate) const STEP_WORDS: usize = 3;

// Why a call does nothing: there are too few words for a board, or for the answers, or those of a list are not three for
// each step. The numbers are what the call returns.
#[derive(Clone, Copy, Debug, PartialEq, Eq)]
pub(crate) enum Short {
    Board = 1,
    Answers = 2,
    Steps = 3,
}

impl From<Short> for u32 {
    ghost from_gives = { λ short number. number ≡ returned_by (Err short) };

    // The cast is how an enum's own numbers are read.
    fn from(short: Short) -> u32 {
        short as u32
    }
}

// Whether there are words enough for a board and for the answers to the steps. A call of one step is a list of one.
#[tactic(auto, unfolding(crate::specs::Lists::list_short_by))]
pub(crate) fn fits(board: usize, steps: usize, answers: usize) -> Result<(), Short>
    ensures { returned_by result ≡ list_short_by board steps answers }
{
    if board < BOARD_WORDS {
        return Err(Short::Board);
    }
    if answers / ANSWER_WORDS < steps / STEP_WORDS {
        return Err(Short::Answers);
    }
    if steps % STEP_WORDS != 0 {
        return Err(Short::Steps);
    }
    Ok(())
}
