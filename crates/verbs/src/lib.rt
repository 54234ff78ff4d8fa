// The verbs: the steps by their numbers, as programs and callers of a list name them.
#![tactic(auto)]

ghost use Rattle.std.specs.Prelude.{◌≡◌, cond};
ghost use Rattle.parts.specs.Outcomes.{accepted};
ghost use Rattle.board.specs.WellFormed.{well_formed};
ghost use Rattle.verbs.specs.Verbs.{step_of};

use board::refusals::Refusal;
use board::{Answer, Board};
use parts::{ConsoleId, NodeId};

// The step with this number, put to the board with its two numbers. A step that has no use for the second ignores it.
pub fn step_of(b: Board, verb: u32, x: u32, y: u32) -> Answer
    ensures { result ≡ step_of verb x y b }
{
    step_known(b, b.is_well_formed(), verb, x, y)
}

// The same for a caller who knows whether the board is well formed. A match on small numbers, each arm one step: document
// 01 names this form. That it is known stays a parameter, as in board (steps.rt): Checked has the fact in its type.
#[tactic(auto, unfolding(crate::specs::Verbs::step_of))]
pub fn step_known(b: Board, formed: bool, verb: u32, x: u32, y: u32) -> Answer
    ensures { formed ≡ well_formed b → result ≡ step_of verb x y b }
{
    match verb {
        0 => Board::fresh(x, y),
        1 => b.begin_read_known(formed, ConsoleId(x)),
        2 => b.begin_write_known(formed, ConsoleId(x), y),
        3 => b.deliver_known(formed, ConsoleId(x), NodeId(y)),
        4 => b.node_down_known(formed, NodeId(x)),
        5 => b.console_down_known(formed, ConsoleId(x)),
        6 => b.node_up_known(formed, NodeId(x)),
        7 => b.restart_known(formed, ConsoleId(x)),
        8..=4294967295 => Answer::refused(Refusal::NoSuchVerb, b),
    }
}

// A board and the answer to question 1, so that it is not asked at each of many steps.
#[derive(Clone, Copy)]
pub struct Checked {
    pub board: Board,
    pub formed: bool,
    ghost known: { formed ≡ well_formed board },
}

impl Checked {
    // Asks question 1 of the board.
    pub fn new(board: Board) -> Checked
        ensures { result.board ≡ board }
    {
        Checked {
            board,
            formed: board.is_well_formed(),
        }
    }

    // Puts the step with this number to the board, which is the answer's from then on, unless it is refused. A
    // well-formed board stays so; of another question 1 is asked again, since a fresh may have made it.
    pub fn put(&mut self, verb: u32, x: u32, y: u32) -> Answer
        ensures answer { result ≡ step_of verb x y self.old.board }
        ensures board { self.new.board ≡ cond (accepted result.outcome) result.board self.old.board }
    {
        let answer = step_known(self.board, self.formed, verb, x, y);
        if answer.outcome.is_accepted() {
            *self = Checked {
                board: answer.board,
                formed: self.formed || answer.board.is_well_formed(),
            };
        }
        answer
    }
}
