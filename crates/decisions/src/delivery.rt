// What a delivery comes to: the questions in their order, then one function for each kind of frame. x is the console, y the node.
ghost use Rattle.std.specs.Prelude.{◌≡◌, true, ◌<◌, ltb};
ghost use Rattle.parts.specs.Finite.{◌implies◌};
ghost use Rattle.parts.specs.Limits.{max_consoles, max_ts};
ghost use Rattle.parts.specs.Parts.{writes};
ghost use Rattle.decisions.specs.Comparable.{Comparable};
ghost use Rattle.decisions.specs.Deliver.{is_withdrawn, on_ask, on_put, discards, heard, finished, finishes_early, turned, replied, on_reply, acknowledged, on_ack, on_frame, delivered};

use crate::consoles::{awaits_ack, awaits_reply, rest};
use crate::hearing::{hear_ack, hear_reply};
use crate::nodes::take_put;
use crate::refusals::Refusal;
use crate::steps::accept;
use crate::telling::tell;
use crate::{Decision, Part, Sent, TakenIn};
use parts::answered::set_size;
use parts::{Console, ConsoleId, Frame, MAX_TS, Node, NodeId, Outcome, Setup, State, Tag};
use std::cmp::Ordering;

// The frame f of console c, which is x, and node k, which is y, is delivered; formed says whether the board is well formed. Promised
// if the tags may be compared; that need hold only on a well-formed board that has console c and node k.
#[tactic(auto, unfolding(crate::specs::Deliver::delivered, crate::specs::Questions::guarded))]
pub fn delivered(
    formed: bool,
    setup: Setup,
    c: ConsoleId,
    k: NodeId,
    x: Console,
    y: Node,
    f: Frame,
) -> Decision
    ensures { (formed ≡ true → c.0 < setup.m → k.0 < setup.n → Comparable c.0 k.0 x y f) → result ≡ delivered formed setup c.0 k.0 x y f }
{
    Refusal::NotWellFormed.unless(formed)?;
    Refusal::NoSuchConsole.unless(c.0 < setup.m)?;
    Refusal::NoSuchNode.unless(k.0 < setup.n)?;
    Refusal::NoFrame.unless(!f.is_nothing())?;
    if is_withdrawn(x, f) {
        return discard();
    }
    deliver_frame(setup, c, k, x, y, f)
}

// An ask or a put of a down console is withdrawn (document 02, Paper 6).
pub(crate) fn is_withdrawn(x: Console, f: Frame) -> bool
    ensures { result ≡ is_withdrawn x f }
{
    f.goes_to_node() && !x.state.is_up()
}

// Question 8 has refused an empty cell, and a frame that is withdrawn does not come here.
#[tactic(auto, unfolding(crate::specs::Deliver::on_frame))]
fn deliver_frame(setup: Setup, c: ConsoleId, k: NodeId, x: Console, y: Node, f: Frame) -> Decision
    ensures { Comparable c.0 k.0 x y f → result ≡ on_frame setup c.0 k.0 x y f }
{
    match f {
        Frame::Nothing => discard(),
        Frame::Ask => deliver_ask(y),
        Frame::Reply(t, v) => deliver_reply(setup, c, k, x, t, v),
        Frame::Put(t, v) => deliver_put(y, t, v),
        Frame::Ack => deliver_ack(setup, k, x),
    }
}

#[tactic(auto, unfolding(crate::specs::Deliver::on_ask, crate::specs::Questions::guarded))]
fn deliver_ask(y: Node) -> Decision
    ensures { result ≡ on_ask y }
{
    Refusal::NodeIsDown.unless(y.up)?;
    accept(
        None,
        Outcome::Handed,
        Part::Neither,
        Sent::One(Frame::Reply(y.tag, y.value)),
    )
}

#[tactic(auto, unfolding(crate::specs::Deliver::on_put, crate::specs::Questions::guarded))]
fn deliver_put(y: Node, t: Tag, v: u32) -> Decision
    ensures { y.tag.console < max_consoles → t.console < max_consoles → result ≡ on_put y t v }
{
    Refusal::NodeIsDown.unless(y.up)?;
    accept(
        None,
        Outcome::Handed,
        Part::NodeTo(take_put(y, t, v)),
        Sent::One(Frame::Ack),
    )
}

#[tactic(auto, unfolding(crate::specs::Deliver::on_reply))]
fn deliver_reply(setup: Setup, c: ConsoleId, k: NodeId, x: Console, t: Tag, v: u32) -> Decision
    ensures { c.0 < max_consoles → k.0 < 8 → x.best.console < max_consoles → t.console < max_consoles → result ≡ on_reply setup c.0 k.0 x t v }
{
    if !awaits_reply(x, k) {
        return discard();
    }
    take_reply(setup, c, hear_reply(x, k, t, v))
}

// The reply is taken in.
#[tactic(auto, unfolding(crate::specs::Deliver::replied, crate::specs::Questions::guarded))]
fn take_reply(setup: Setup, c: ConsoleId, reply: TakenIn) -> Decision
    ensures { c.0 < max_consoles → result ≡ replied setup c.0 reply }
{
    let x = reply.console;
    let how = Some(reply.compared);
    if set_size(x.answered) < setup.ask_size() {
        return hear(how, x);
    }
    if finishes_early(setup, x) {
        return finish(how, x);
    }
    Refusal::TsUsedUp.unless(has_next(x))?;
    turn(c, how, x)
}

// Whether a read finishes with the replies alone (document 02, Paper 4); x is the console with the reply taken in.
#[tactic(auto, unfolding(crate::specs::Deliver::finishes_early))]
pub(crate) fn finishes_early(setup: Setup, x: Console) -> bool
    ensures { result ≡ finishes_early setup x }
{
    setup.release.is_two() && !x.state.is_writing() && x.alike
}

// Question 10: whether a write's timestamp can grow; x is the console with the reply taken in.
pub(crate) fn has_next(x: Console) -> bool
    ensures { result ≡ (writes x.state implies ltb x.best.ts max_ts) }
{
    !x.state.is_writing() || x.best.ts < MAX_TS
}

#[tactic(auto, unfolding(crate::specs::Deliver::on_ack))]
fn deliver_ack(setup: Setup, k: NodeId, x: Console) -> Decision
    ensures { k.0 < 8 → result ≡ on_ack setup k.0 x }
{
    if !awaits_ack(x, k) {
        return discard();
    }
    take_ack(setup, hear_ack(x, k))
}

// An ack is taken in, with which the console is x.
#[tactic(auto, unfolding(crate::specs::Deliver::acknowledged))]
fn take_ack(setup: Setup, x: Console) -> Decision
    ensures { result ≡ acknowledged setup x }
{
    if set_size(x.answered) < setup.tell_size() {
        return hear(None, x);
    }
    finish(None, x)
}

// The console, with the reply taken in, turns, where a tag has room for its number and a write's timestamp can grow.
#[tactic(auto, unfolding(crate::specs::Deliver::turned))]
fn turn(c: ConsoleId, how: Option<Ordering>, x: Console) -> Decision
    ensures { c.0 < max_consoles → (writes x.state ≡ true → x.best.ts < max_ts) → result ≡ turned c.0 how x }
{
    let z = tell(c, x);
    accept(
        how,
        Outcome::Turned,
        Part::ConsoleTo(z),
        Sent::Row(Frame::Put(z.best, z.value)),
    )
}

// The cell empties, and the console is x.
#[tactic(auto, unfolding(crate::specs::Deliver::heard))]
fn hear(how: Option<Ordering>, x: Console) -> Decision
    ensures { result ≡ heard how x }
{
    accept(
        how,
        Outcome::Heard,
        Part::ConsoleTo(x),
        Sent::One(Frame::Nothing),
    )
}

// The cell empties, and the console, which is x, has finished its operation.
#[tactic(auto, unfolding(crate::specs::Deliver::finished))]
fn finish(how: Option<Ordering>, x: Console) -> Decision
    ensures { result ≡ finished how x }
{
    accept(
        how,
        Outcome::Finished(x.best, x.value),
        Part::ConsoleTo(rest(State::Idle, x)),
        Sent::One(Frame::Nothing),
    )
}

// The cell empties, and nothing else changes.
#[tactic(auto, unfolding(crate::specs::Deliver::discards))]
fn discard() -> Decision
    ensures { result ≡ discards }
{
    accept(
        None,
        Outcome::Discarded,
        Part::Neither,
        Sent::One(Frame::Nothing),
    )
}
