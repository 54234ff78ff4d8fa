// The pairs in their order, and the first of them that can be delivered.
ghost use Rattle.std.specs.Prelude.{◌≡◌, ◌*◌, ◌<◌, true};
ghost use Rattle.board.specs.WellFormed.{well_formed};
ghost use Rattle.picker.specs.Picking.{pair_after, first_of, can_go};

use crate::Pair;
use board::Board;
use parts::{ConsoleId, NodeId};

impl Pair {
    // The next pair of n nodes and m consoles, by console, then node, wrapping.
    #[tactic(auto, unfolding(crate::specs::Picking::pair_after))]
    fn after(self, n: u32, m: u32) -> Pair
        requires { (self.console.0 < m) × (self.node.0 < n) }
        ensures { result ≡ pair_after n m self }
    {
        let c = self.console.0;
        let k = self.node.0;
        let (console, node) = if k + 1 < n {
            (c, k + 1)
        } else if c + 1 < m {
            (c + 1, 0)
        } else {
            (0, 0)
        };
        Pair {
            console: ConsoleId(console),
            node: NodeId(node),
        }
    }
}

// The first pair after the last one whose frame can be delivered without refusal, on a board that question 1 has
// passed.
#[tactic(auto, using(crate::proofs::PairsLaws::pairs_at_most, crate::proofs::PairsLaws::after_within, crate::proofs::PairsLaws::first_none, crate::proofs::PairsLaws::first_more))]
pub(crate) fn first_after(b: &Board, last: Pair) -> Option<Pair>
    requires formed { well_formed b.now ≡ true }
    requires last { (last.console.0 < b.now.setup.m) × (last.node.0 < b.now.setup.n) }
    ensures { result ≡ first_of b.now.setup.n b.now.setup.m (can_go b.now) (b.now.setup.n * b.now.setup.m) last }
{
    let n = b.setup.n;
    let m = b.setup.m;
    let mut p = last;
    for _ in 0..n * m {
        p = p.after(n, m);
        if b.is_deliverable_known(true, p.console, p.node) {
            return Some(p);
        }
    }
    None
}
