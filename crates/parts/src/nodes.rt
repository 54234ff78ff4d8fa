// The nodes of a board: a fresh one, and reading one.
ghost use Rattle.std.specs.Prelude.{◌≡◌};
ghost use Rattle.parts.specs.Parts.{node_in};

use crate::{NODES, Node, NodeId, Tag};

impl Node {
    // A node of a fresh board: up with tag (0, 0) and value 0.
    pub const FRESH: Node = Node {
        up: true,
        tag: Tag::ZERO,
        value: 0,
    };
}

// Node k; from 5 on a fresh node. (The cast: cells.rt.)
#[tactic(auto, unfolding(crate::specs::Parts::node_in))]
pub fn node_in(nodes: &[Node; NODES], k: NodeId) -> Node
    ensures { result ≡ node_in nodes.now k.0 }
{
    nodes.get(k.0 as usize).copied().unwrap_or(Node::FRESH)
}
