// A console hears: a reply or an ack is taken in.
ghost use Rattle.std.specs.Prelude.{◌≡◌, ◌<◌};
ghost use Rattle.parts.specs.Limits.{max_consoles};
ghost use Rattle.decisions.specs.Changes.{still_alike, takes_in, acked};

use crate::TakenIn;
use parts::answered::with_member;
use parts::{Console, NodeId, Tag};
use std::cmp::Ordering;

// The mark once a reply that compared so is taken in.
#[tactic(auto, unfolding(crate::specs::Changes::still_alike))]
fn is_still_alike(x: Console, how: Ordering) -> bool
    ensures { result ≡ still_alike x how }
{
    x.answered == 0 || x.alike && how.is_eq()
}

// A reply of node k is taken in: where a byte has room for k, and the tags may be compared. Neither is a fact of a type:
// the node and the tags of any board may be handed in, and a well-formed board alone has them so.
pub fn hear_reply(x: Console, k: NodeId, t: Tag, v: u32) -> TakenIn
    ensures { k.0 < 8 → x.best.console < max_consoles → t.console < max_consoles → result ≡ takes_in x k.0 t v }
{
    let compared = t.compared_with(x.best);
    let heard = Console {
        answered: with_member(x.answered, k),
        alike: is_still_alike(x, compared),
        ..x
    };
    if compared.is_gt() {
        return TakenIn {
            console: Console {
                best: t,
                value: v,
                ..heard
            },
            compared,
        };
    }
    TakenIn {
        console: heard,
        compared,
    }
}

// The console with an ack of node k taken in, where a byte has room for k.
#[tactic(auto, unfolding(crate::specs::Changes::acked))]
pub fn hear_ack(x: Console, k: NodeId) -> Console
    ensures { k.0 < 8 → result ≡ acked x k.0 }
{
    Console {
        answered: with_member(x.answered, k),
        ..x
    }
}
