// Looking at a board's parts. Beyond the lists there is a fresh node, an idle console or an empty cell. A node number
// from 5 on may name another pair's cell: question 5 refuses it.
ghost use Rattle.std.specs.Prelude.{◌≡◌};
ghost use Rattle.board.specs.Boards.{node_at, console_at, frame_at};

use crate::Board;
use parts::cells::frame_in;
use parts::consoles::console_in;
use parts::nodes::node_in;
use parts::{Console, ConsoleId, Frame, Node, NodeId};

impl Board {
    #[tactic(auto, unfolding(crate::specs::Boards::node_at))]
    pub(crate) fn node_at(&self, k: NodeId) -> Node
        ensures { result ≡ node_at self.now k.0 }
    {
        node_in(&self.nodes, k)
    }

    #[tactic(auto, unfolding(crate::specs::Boards::console_at))]
    pub(crate) fn console_at(&self, c: ConsoleId) -> Console
        ensures { result ≡ console_at self.now c.0 }
    {
        console_in(&self.consoles, c)
    }

    // The frame in the cell of console c and node k.
    #[tactic(auto, unfolding(crate::specs::Boards::frame_at))]
    pub(crate) fn frame_at(&self, c: ConsoleId, k: NodeId) -> Frame
        ensures { result ≡ frame_at self.now c.0 k.0 }
    {
        frame_in(&self.cells, c, k)
    }
}
