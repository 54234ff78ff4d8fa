// The ways to answer a step, and an answer's refusal as a number.
ghost use Rattle.std.specs.Prelude.{◌≡◌};
ghost use Rattle.decisions.specs.Refusals.{refusal_number};
ghost use Rattle.decisions.specs.declared.refusals.Refusal.{Refusal};
ghost use Rattle.board.specs.Answers.{answer_with, answer, refuse};

use crate::{Answer, Board};
use decisions::refusals::Refusal;
use parts::Outcome;
use std::cmp::Ordering;

impl Answer {
    // A step that was done, with how the reply that it took in compared (none: it took none in) and the next board.
    pub(crate) fn accepted_with(
        compared: Option<Ordering>,
        outcome: Outcome,
        board: Board,
    ) -> Answer
        ensures { result ≡ answer_with compared outcome board }
    {
        Answer {
            outcome,
            refusal: None,
            compared,
            board,
        }
    }

    // A step that was done and took no reply in, with the next board.
    pub(crate) fn accepted(outcome: Outcome, board: Board) -> Answer
        ensures { result ≡ answer outcome board }
    {
        Answer::accepted_with(None, outcome, board)
    }

    // A step that is refused, by a refusal or by any number, with the board to hand back.
    pub fn refused<R: Into<Refusal>>(refusal: R, board: Board) -> Answer
        ensures { (why : Refusal) × R.converts refusal why × (result ≡ refuse board why) }
    {
        Answer {
            outcome: Outcome::Refused,
            refusal: Some(refusal.into()),
            compared: None,
            board,
        }
    }

    // The number of the refusal, or 0.
    pub fn refusal_number(self) -> u32
        ensures { result ≡ refusal_number self.refusal }
    {
        self.refusal.map_or(0, u32::from)
    }
}
