// The steps but for fresh and deliver: begin read, begin write, node down, node up, console down, restart. Each does on
// the board what is decided of its console or its node; the board goes in and the next one comes back in the answer.
// Beside each is the same step for a caller who knows whether the board is well formed, so that question 1 need not be
// asked. That stays a parameter and is no fact of a type: a public step asks nothing of its caller. verbs has the type
// (Checked).
ghost use Rattle.std.specs.Prelude.{◌≡◌};
ghost use Rattle.board.specs.WellFormed.{well_formed};
ghost use Rattle.board.specs.Steps.{begin, begin_read, begin_write, node_down, node_up, console_down, restart};

use crate::{Answer, Board};
use decisions::steps::{begin, end, fall, restart, rise};
use parts::{ConsoleId, Kind, NodeId};

impl Board {
    // Console c begins a read: it asks all nodes.
    pub fn begin_read(self, c: ConsoleId) -> Answer
        ensures { result ≡ begin_read self c.0 }
    {
        self.begin_read_known(self.is_well_formed(), c)
    }

    pub fn begin_read_known(self, formed: bool, c: ConsoleId) -> Answer
        ensures { formed ≡ well_formed self → result ≡ begin_read self c.0 }
    {
        self.begin_known(formed, c, Kind::Read, 0)
    }

    // Console c begins a write of v: it asks all nodes.
    pub fn begin_write(self, c: ConsoleId, v: u32) -> Answer
        ensures { result ≡ begin_write self c.0 v }
    {
        self.begin_write_known(self.is_well_formed(), c, v)
    }

    pub fn begin_write_known(self, formed: bool, c: ConsoleId, v: u32) -> Answer
        ensures { formed ≡ well_formed self → result ≡ begin_write self c.0 v }
    {
        self.begin_known(formed, c, Kind::Write, v)
    }

    // A begin of either kind; v is the wanted value.
    #[tactic(auto, unfolding(crate::specs::Steps::begin))]
    fn begin_known(self, formed: bool, c: ConsoleId, w: Kind, v: u32) -> Answer
        ensures { formed ≡ well_formed self → result ≡ begin self c.0 w v }
    {
        let decision = begin(formed, self.setup, c, w, v, self.console_at(c));
        self.apply(c, NodeId(0), decision)
    }

    // Console c goes down: its operation is gone, its frames stay in their cells.
    pub fn console_down(self, c: ConsoleId) -> Answer
        ensures { result ≡ console_down self c.0 }
    {
        self.console_down_known(self.is_well_formed(), c)
    }

    #[tactic(auto, unfolding(crate::specs::Steps::console_down))]
    pub fn console_down_known(self, formed: bool, c: ConsoleId) -> Answer
        ensures { formed ≡ well_formed self → result ≡ console_down self c.0 }
    {
        let decision = end(formed, self.setup, c, self.console_at(c));
        self.apply(c, NodeId(0), decision)
    }

    // Console c, which is down, comes back: it is idle, in its next life, and its cells are empty.
    pub fn restart(self, c: ConsoleId) -> Answer
        ensures { result ≡ restart self c.0 }
    {
        self.restart_known(self.is_well_formed(), c)
    }

    #[tactic(auto, unfolding(crate::specs::Steps::restart))]
    pub fn restart_known(self, formed: bool, c: ConsoleId) -> Answer
        ensures { formed ≡ well_formed self → result ≡ restart self c.0 }
    {
        let decision = restart(formed, self.setup, c, self.console_at(c));
        self.apply(c, NodeId(0), decision)
    }

    // Node k goes down: it keeps its tag and value, and nothing is delivered to it.
    pub fn node_down(self, k: NodeId) -> Answer
        ensures { result ≡ node_down self k.0 }
    {
        self.node_down_known(self.is_well_formed(), k)
    }

    #[tactic(auto, unfolding(crate::specs::Steps::node_down))]
    pub fn node_down_known(self, formed: bool, k: NodeId) -> Answer
        ensures { formed ≡ well_formed self → result ≡ node_down self k.0 }
    {
        let decision = fall(formed, self.setup, k, self.node_at(k));
        self.apply(ConsoleId(0), k, decision)
    }

    // Node k comes back with the tag and value that it held; frames waiting for it can be delivered again.
    pub fn node_up(self, k: NodeId) -> Answer
        ensures { result ≡ node_up self k.0 }
    {
        self.node_up_known(self.is_well_formed(), k)
    }

    #[tactic(auto, unfolding(crate::specs::Steps::node_up))]
    pub fn node_up_known(self, formed: bool, k: NodeId) -> Answer
        ensures { formed ≡ well_formed self → result ≡ node_up self k.0 }
    {
        let decision = rise(formed, self.setup, k, self.node_at(k));
        self.apply(ConsoleId(0), k, decision)
    }
}
