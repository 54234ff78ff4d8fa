// The clauses on nodes.
ghost use Rattle.std.specs.Prelude.{◌≡◌};
ghost use Rattle.well_formed.specs.Clauses.{node_ok, nodes_ok};

use crate::every::every;
use crate::tags::{is_tag_ok, is_zero};
use parts::{MAX_NODES, NODES, Node, NodeId, Setup};

#[tactic(auto, unfolding(crate::specs::Clauses::node_ok))]
fn is_node_ok(setup: Setup, k: NodeId, x: Node) -> bool
    ensures { result ≡ node_ok setup k.0 x }
{
    if k.0 < setup.n {
        is_tag_ok(setup.m, x.tag, x.value)
    } else {
        x.up && is_zero(x.tag, x.value)
    }
}

// Node by node. (The cast: cells.rt of parts.)
pub fn are_nodes_ok(setup: Setup, nodes: &[Node; NODES]) -> bool
    ensures { result ≡ nodes_ok setup nodes.now }
{
    every(
        MAX_NODES,
        |k| is_node_ok(setup, NodeId(k), nodes[k as usize]),
    )
}
