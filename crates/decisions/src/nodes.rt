// The changes of a node.
ghost use Rattle.std.specs.Prelude.{◌≡◌, ◌<◌};
ghost use Rattle.parts.specs.Limits.{max_consoles};
ghost use Rattle.decisions.specs.Changes.{with_up, taken};

use parts::{Node, Tag};

// The node, up or down, with its tag and value.
#[tactic(auto, unfolding(crate::specs::Changes::with_up))]
pub fn set_up(x: Node, up: bool) -> Node
    ensures { result ≡ with_up up x }
{
    Node { up, ..x }
}

// The node after a put: with the greater tag and its value, where the tags may be compared. Tag and value come apart, as
// frames carry them (parts).
#[tactic(auto, unfolding(crate::specs::Changes::taken))]
pub fn take_put(x: Node, t: Tag, v: u32) -> Node
    ensures { x.tag.console < max_consoles → t.console < max_consoles → result ≡ taken x t v }
{
    if !t.is_greater(x.tag) {
        return x;
    }
    Node {
        tag: t,
        value: v,
        ..x
    }
}
