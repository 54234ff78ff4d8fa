// The preview of a delivery: what is decided of it, and a count of the frames that it would leave. No board is copied.
ghost use Rattle.std.specs.Prelude.{◌≡◌, ◌≤◌, ◌<◌, cond, eqb};
ghost use Rattle.parts.specs.Limits.{max_nodes, max_consoles};
ghost use Rattle.decisions.specs.Refusals.{number_of, refusal_number};
ghost use Rattle.board.specs.Applied.{with_sent};
ghost use Rattle.board.specs.Preview.{frames_in, preview};

use crate::counting::{frames_in, frames_with_one, frames_with_row};
use crate::refusals::Refusal;
use crate::{Board, Preview};
use decisions::Sent;
use parts::{ConsoleId, NodeId, Outcome};

impl Preview {
    // The number of the refusal, or 0.
    pub fn refusal_number(self) -> u32
        ensures { result ≡ refusal_number self.refusal }
    {
        self.refusal.map_or(0, u32::from)
    }
}

impl Board {
    // What delivering the frame between console c and node k would answer, and the frames in flight after it.
    #[tactic(auto, unfolding(crate::specs::Deliver::deliver, crate::specs::Applied::applied, crate::specs::Preview::preview_of), using(crate::proofs::AcceptedLaws::in_range, crate::proofs::AcceptedLaws::part_keeps_cells))]
    pub fn preview(&self, c: ConsoleId, k: NodeId) -> Preview
        ensures { result ≡ preview self.now c.0 k.0 }
    {
        match self.delivery_known(self.is_well_formed(), c, k) {
            Err(refusal) => Preview {
                outcome: Outcome::Refused,
                refusal: Some(refusal),
                in_flight: self.in_flight_under(refusal),
            },
            Ok(change) => Preview {
                outcome: change.outcome,
                refusal: None,
                in_flight: self.in_flight_after(c, k, change.sent),
            },
        }
    }

    // The frames in flight after a delivery that is refused.
    fn in_flight_under(&self, refusal: Refusal) -> u32
        ensures { result ≡ cond (eqb (number_of refusal) 1) 0 (frames_in self.now.cells) }
    {
        if u32::from(refusal) == u32::from(Refusal::NotWellFormed) {
            return 0;
        }
        frames_in(&self.cells)
    }

    // The frames in flight after a delivery that sends this between console c and node k.
    #[tactic(auto, unfolding(crate::specs::Applied::with_sent, crate::specs::Boards::with_frame, crate::specs::Boards::with_row))]
    fn in_flight_after(&self, c: ConsoleId, k: NodeId, sent: Sent) -> u32
        requires { (c.0 < max_consoles) × (k.0 < max_nodes) × (self.now.setup.n ≤ max_nodes) }
        ensures { result ≡ frames_in (with_sent self.now c.0 k.0 sent).cells }
    {
        match sent {
            Sent::Keep => frames_in(&self.cells),
            Sent::One(f) => frames_with_one(&self.cells, c, k, f),
            Sent::Row(f) => frames_with_row(&self.cells, c, self.setup.n, f),
        }
    }
}
