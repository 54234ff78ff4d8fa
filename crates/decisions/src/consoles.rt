// A console begins, rests, is restarted, and awaits answers.
ghost use Rattle.std.specs.Prelude.{◌≡◌, ◌+◌, ◌<◌};
ghost use Rattle.parts.specs.Limits.{max_life};
ghost use Rattle.parts.specs.Parts.{is_asking, is_telling};
ghost use Rattle.decisions.specs.Changes.{rests, restarted, asks, awaits};

use parts::answered::is_member;
use parts::{Console, Kind, MAX_LIFE, NodeId, State};

// The console without an operation, in state s, with its life.
#[tactic(auto, unfolding(crate::specs::Changes::rests))]
pub fn rest(s: State, x: Console) -> Console
    ensures { result ≡ rests s x }
{
    Console {
        state: s,
        life: x.life,
        ..Console::IDLE
    }
}

// The life after this one, where there is one: question 16 asks it before a console restarts.
fn next_life(life: u16) -> u16
    ensures { life < max_life → result ≡ life + 1 }
{
    if life < MAX_LIFE { life + 1 } else { life }
}

// The console restarted: idle, in its next life, where there is one.
#[tactic(auto, unfolding(crate::specs::Changes::restarted))]
pub fn restarted(x: Console) -> Console
    ensures { x.life < max_life → result ≡ restarted x }
{
    Console {
        life: next_life(x.life),
        ..Console::IDLE
    }
}

// The console as it begins to ask.
#[tactic(auto, unfolding(crate::specs::Changes::asks, crate::specs::Changes::rests))]
pub fn ask(w: Kind, v: u32, x: Console) -> Console
    ensures { result ≡ asks w v x }
{
    Console {
        state: State::Asking(w),
        wanted: v,
        ..rest(State::Idle, x)
    }
}

// Whether the console asks and has no answer yet from node k. The phase is no parameter: a closure's would be longer.
#[tactic(auto, unfolding(crate::specs::Changes::awaits))]
pub fn awaits_reply(x: Console, k: NodeId) -> bool
    ensures { result ≡ awaits is_asking x k.0 }
{
    x.state.is_asking() && !is_member(x.answered, k)
}

// Whether the console tells and has no answer yet from node k.
#[tactic(auto, unfolding(crate::specs::Changes::awaits))]
pub fn awaits_ack(x: Console, k: NodeId) -> bool
    ensures { result ≡ awaits is_telling x k.0 }
{
    x.state.is_telling() && !is_member(x.answered, k)
}
