// Whether a delivery is accepted, by its questions alone: nothing is made of what it changes. For those who try many
// pairs (document 02, Paper 9).
ghost use Rattle.std.specs.Prelude.{◌≡◌, ◌<◌, ℕ, true};
ghost use Rattle.parts.specs.Limits.{max_consoles};
ghost use Rattle.decisions.specs.Comparable.{Comparable};
ghost use Rattle.decisions.specs.Deliver.{on_frame, on_reply, delivered, accepts};

use crate::consoles::awaits_reply;
use crate::delivery::{finishes_early, has_next, is_withdrawn};
use crate::hearing::hear_reply;
use parts::answered::set_size;
use parts::{Console, ConsoleId, Frame, Node, NodeId, Setup, Tag};

// The parameters and the promise are those of `delivered`.
#[tactic(auto, unfolding(crate::specs::Deliver::delivered, crate::specs::Deliver::discards, crate::specs::Questions::guarded))]
pub fn is_accepted(
    formed: bool,
    setup: Setup,
    c: ConsoleId,
    k: NodeId,
    x: Console,
    y: Node,
    f: Frame,
) -> bool
    ensures { (formed ≡ true → c.0 < setup.m → k.0 < setup.n → Comparable c.0 k.0 x y f) → result ≡ accepts (delivered formed setup c.0 k.0 x y f) }
{
    formed
        && c.0 < setup.m
        && k.0 < setup.n
        && !f.is_nothing()
        && (is_withdrawn(x, f) || is_frame_accepted(setup, k, x, y, f))
}

#[tactic(auto, unfolding(crate::specs::Deliver::on_frame, crate::specs::Deliver::on_ask, crate::specs::Deliver::on_put, crate::specs::Deliver::on_ack, crate::specs::Deliver::acknowledged, crate::specs::Deliver::heard, crate::specs::Deliver::finished, crate::specs::Deliver::discards, crate::specs::Questions::guarded))]
fn is_frame_accepted(setup: Setup, k: NodeId, x: Console, y: Node, f: Frame) -> bool
    ensures { (c : ℕ) → Comparable c k.0 x y f → result ≡ accepts (on_frame setup c k.0 x y f) }
{
    if f.goes_to_node() {
        return y.up;
    }
    match f {
        Frame::Reply(t, v) => is_reply_accepted(setup, k, x, t, v),
        _ => true,
    }
}

#[tactic(auto, unfolding(crate::specs::Deliver::on_reply, crate::specs::Deliver::replied, crate::specs::Deliver::heard, crate::specs::Deliver::finished, crate::specs::Deliver::turned, crate::specs::Deliver::discards, crate::specs::Questions::guarded))]
fn is_reply_accepted(setup: Setup, k: NodeId, x: Console, t: Tag, v: u32) -> bool
    ensures { (c : ℕ) → k.0 < 8 → x.best.console < max_consoles → t.console < max_consoles → result ≡ accepts (on_reply setup c k.0 x t v) }
{
    if !awaits_reply(x, k) {
        return true;
    }
    let heard = hear_reply(x, k, t, v).console;
    set_size(heard.answered) < setup.ask_size() || finishes_early(setup, heard) || has_next(heard)
}
