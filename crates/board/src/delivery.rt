// Deliver: what is decided of one console, one node and one frame, done on the board.
ghost use Rattle.std.specs.Prelude.{◌≡◌};
ghost use Rattle.board.specs.WellFormed.{well_formed};
ghost use Rattle.board.specs.Deliver.{delivery, deliver, deliverable};

use crate::{Answer, Board};
use decisions::Decision;
use decisions::accepting::is_accepted;
use decisions::delivery::delivered;
use parts::{ConsoleId, NodeId};

impl Board {
    // The frame between console c and node k is delivered.
    pub fn deliver(self, c: ConsoleId, k: NodeId) -> Answer
        ensures { result ≡ deliver self c.0 k.0 }
    {
        self.deliver_known(self.is_well_formed(), c, k)
    }

    // The same for a caller who knows whether the board is well formed (steps.rt).
    #[tactic(auto, unfolding(crate::specs::Deliver::deliver))]
    pub fn deliver_known(self, formed: bool, c: ConsoleId, k: NodeId) -> Answer
        ensures { formed ≡ well_formed self → result ≡ deliver self c.0 k.0 }
    {
        let decision = self.delivery_known(formed, c, k);
        self.apply(c, k, decision)
    }

    // Whether the frame can be delivered without refusal, for a caller who knows whether the board is well formed.
    pub fn is_deliverable_known(&self, formed: bool, c: ConsoleId, k: NodeId) -> bool
        ensures { formed ≡ well_formed self.now → result ≡ deliverable self.now c.0 k.0 }
    {
        is_accepted(
            formed,
            self.setup,
            c,
            k,
            self.console_at(c),
            self.node_at(k),
            self.frame_at(c, k),
        )
    }

    // What the delivery comes to.
    pub(crate) fn delivery_known(&self, formed: bool, c: ConsoleId, k: NodeId) -> Decision
        ensures { formed ≡ well_formed self.now → result ≡ delivery self.now c.0 k.0 }
    {
        let x = self.console_at(c);
        let y = self.node_at(k);
        let f = self.frame_at(c, k);
        delivered(formed, self.setup, c, k, x, y, f)
    }
}
