// What the steps but for fresh and deliver come to: the questions in their order, then the change of one part. Of the first question the
// answer is handed in: formed says whether the board is well formed. It and the setup, a part and its number stay apart:
// the questions ask each of them alone, and a struct would be taken to pieces at once.
ghost use Rattle.std.specs.Prelude.{◌≡◌, None, cond};
ghost use Rattle.decisions.specs.Steps.{accept, begins, ends, restarts, falls, rises};

use crate::consoles::{ask, rest, restarted};
use crate::nodes::set_up;
use crate::refusals::Refusal;
use crate::{Change, Decision, Part, Sent};
use parts::{Console, ConsoleId, Frame, Kind, MAX_LIFE, Node, NodeId, Outcome, Setup, State};
use std::cmp::Ordering;

// Console c, which is x, begins an operation of either kind; v is the wanted value.
#[tactic(auto, unfolding(crate::specs::Steps::begins, crate::specs::Questions::guarded))]
pub fn begin(formed: bool, setup: Setup, c: ConsoleId, w: Kind, v: u32, x: Console) -> Decision
    ensures { result ≡ begins formed setup c.0 w v x }
{
    Refusal::NotWellFormed.unless(formed)?;
    Refusal::NoSuchConsole.unless(c.0 < setup.m)?;
    Refusal::ConsoleIsDown.unless(x.state.is_up())?;
    Refusal::ConsoleBusy.unless(x.state.is_idle())?;
    done(Part::ConsoleTo(ask(w, v, x)), Sent::Row(Frame::Ask))
}

// Console c, which is x, goes down.
#[tactic(auto, unfolding(crate::specs::Steps::ends, crate::specs::Questions::guarded))]
pub fn end(formed: bool, setup: Setup, c: ConsoleId, x: Console) -> Decision
    ensures { result ≡ ends formed setup c.0 x }
{
    Refusal::NotWellFormed.unless(formed)?;
    Refusal::NoSuchConsole.unless(c.0 < setup.m)?;
    Refusal::ConsoleIsDown.unless(x.state.is_up())?;
    done(Part::ConsoleTo(rest(State::Down, x)), Sent::Keep)
}

// Console c, which is x, is restarted: its cells empty.
#[tactic(auto, unfolding(crate::specs::Steps::restarts, crate::specs::Questions::guarded))]
pub fn restart(formed: bool, setup: Setup, c: ConsoleId, x: Console) -> Decision
    ensures { result ≡ restarts formed setup c.0 x }
{
    Refusal::NotWellFormed.unless(formed)?;
    Refusal::NoSuchConsole.unless(c.0 < setup.m)?;
    Refusal::ConsoleIsUp.unless(!x.state.is_up())?;
    Refusal::LivesUsedUp.unless(x.life < MAX_LIFE)?;
    done(Part::ConsoleTo(restarted(x)), Sent::Row(Frame::Nothing))
}

// Node k, which is y, goes down.
pub fn fall(formed: bool, setup: Setup, k: NodeId, y: Node) -> Decision
    ensures { result ≡ falls formed setup k.0 y }
{
    switch(formed, setup, k, y, false)
}

// Node k, which is y, comes back.
pub fn rise(formed: bool, setup: Setup, k: NodeId, y: Node) -> Decision
    ensures { result ≡ rises formed setup k.0 y }
{
    switch(formed, setup, k, y, true)
}

// Node k, which is y, comes back or goes down: the two differ in one question and one bool, for which a flag is enough.
#[tactic(auto, unfolding(crate::specs::Steps::falls, crate::specs::Steps::rises, crate::specs::Questions::guarded))]
fn switch(formed: bool, setup: Setup, k: NodeId, y: Node, up: bool) -> Decision
    ensures { result ≡ cond up (rises formed setup k.0 y) (falls formed setup k.0 y) }
{
    Refusal::NotWellFormed.unless(formed)?;
    Refusal::NoSuchNode.unless(k.0 < setup.n)?;
    if up {
        Refusal::NodeIsUp.unless(!y.up)?;
    } else {
        Refusal::NodeIsDown.unless(y.up)?;
    }
    done(Part::NodeTo(set_up(y, up)), Sent::Keep)
}

// A step that is accepted with outcome done, and took no reply in.
fn done(part: Part, sent: Sent) -> Decision
    ensures { result ≡ accept None Outcome.Done part sent }
{
    accept(None, Outcome::Done, part, sent)
}

// A step that is accepted, and what it changes.
pub(crate) fn accept(
    compared: Option<Ordering>,
    outcome: Outcome,
    part: Part,
    sent: Sent,
) -> Decision
    ensures { result ≡ accept compared outcome part sent }
{
    Ok(Change {
        outcome,
        compared,
        part,
        sent,
    })
}
