// What is decided of console c and node k, done on the board. A place beyond the lists stores nothing. (The casts: cells.rt of
// parts.)
ghost use Rattle.std.specs.Prelude.{◌≡◌, set};
ghost use Rattle.board.specs.Applied.{with_sent, with_part, applied};
ghost use Rattle.board.specs.Boards.{with_frame, with_row};

use crate::{Answer, Board};
use decisions::{Decision, Part, Sent};
use parts::cells::cell_index;
use parts::{Cell, ConsoleId, Frame, NodeId};

// Puts x at the place i, where the list reaches so far.
fn put<T: Copy>(list: &mut [T], i: usize, x: T)
    ensures { list.new ≡ set list.old i x }
{
    if i < list.len() {
        list[i] = x;
    }
}

impl Board {
    // What was decided of console c and node k is done on the board.
    #[tactic(auto, unfolding(crate::specs::Applied::applied))]
    pub(crate) fn apply(self, c: ConsoleId, k: NodeId, decision: Decision) -> Answer
        ensures { result ≡ applied self c.0 k.0 decision }
    {
        match decision {
            Err(refusal) => Answer::refused(refusal, self),
            Ok(change) => {
                let next = self
                    .with_sent(c, k, change.sent)
                    .with_part(c, k, change.part);
                Answer::accepted_with(change.compared, change.outcome, next)
            }
        }
    }

    // The board with the frame in the cell of console c and node k, or in all n cells of console c, or in none.
    #[tactic(auto, unfolding(crate::specs::Applied::with_sent))]
    fn with_sent(mut self, c: ConsoleId, k: NodeId, sent: Sent) -> Board
        ensures { result ≡ with_sent self c.0 k.0 sent }
    {
        match sent {
            Sent::Keep => {}
            Sent::One(frame) => self.store(c, k, frame),
            Sent::Row(frame) => self.store_row(c, frame),
        }
        self
    }

    // Puts the frame in the cell of console c and node k.
    #[tactic(auto, unfolding(crate::specs::Boards::with_frame, parts::specs::Parts::set_frame))]
    fn store(&mut self, c: ConsoleId, k: NodeId, frame: Frame)
        ensures { self.new ≡ with_frame self.old c.0 k.0 frame }
    {
        put(&mut self.cells, cell_index(c, k), Cell { frame });
    }

    // Puts the frame in all n cells of console c.
    fn store_row(&mut self, c: ConsoleId, frame: Frame)
        ensures { self.new ≡ with_row self.old c.0 frame }
    {
        for k in 0..self.setup.n {
            self.store(c, NodeId(k), frame);
        }
    }

    // The board with console c or node k changed, or neither.
    #[tactic(auto, unfolding(crate::specs::Applied::with_part, crate::specs::Boards::with_console, crate::specs::Boards::with_node))]
    fn with_part(mut self, c: ConsoleId, k: NodeId, part: Part) -> Board
        ensures { result ≡ with_part self c.0 k.0 part }
    {
        match part {
            Part::Neither => {}
            Part::ConsoleTo(x) => put(&mut self.consoles, c.0 as usize, x),
            Part::NodeTo(y) => put(&mut self.nodes, k.0 as usize, y),
        }
        self
    }
}
