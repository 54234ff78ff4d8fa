// The clauses on consoles.
ghost use Rattle.std.specs.Prelude.{◌≡◌};
ghost use Rattle.well_formed.specs.Clauses.{rest_ok, wanted_ok, wait_ok, state_ok, mark_ok, console_ok, consoles_ok};

use crate::every::every;
use crate::tags::{is_tag_ok, is_zero};
use parts::answered::{is_only_below, set_size};
use parts::{CONSOLES, Console, ConsoleId, Kind, MAX_CONSOLES, MAX_LIFE, Setup, State};

#[tactic(auto, unfolding(crate::specs::Clauses::rest_ok))]
fn is_rest_ok(x: Console) -> bool
    ensures { result ≡ rest_ok x }
{
    x.answered == 0 && is_zero(x.best, x.value) && x.wanted == 0
}

// A read's wanted value is 0.
#[tactic(auto, unfolding(crate::specs::Clauses::wanted_ok))]
fn is_wanted_ok(w: Kind, wanted: u32) -> bool
    ensures { result ≡ wanted_ok w wanted }
{
    w.is_write() || wanted == 0
}

#[tactic(auto, unfolding(crate::specs::Clauses::wait_ok))]
fn is_wait_ok(setup: Setup, q: u32, w: Kind, x: Console) -> bool
    ensures { result ≡ wait_ok setup q w x }
{
    is_only_below(setup.n, x.answered) && set_size(x.answered) < q && is_wanted_ok(w, x.wanted)
}

#[tactic(auto, unfolding(crate::specs::Clauses::state_ok))]
fn is_state_ok(setup: Setup, x: Console, s: State) -> bool
    ensures { result ≡ state_ok setup x s }
{
    match s {
        State::Idle | State::Down => is_rest_ok(x),
        State::Asking(w) => {
            is_wait_ok(setup, setup.ask_size(), w, x)
                && (x.answered != 0 || is_zero(x.best, x.value))
        }
        State::Telling(w) => is_wait_ok(setup, setup.tell_size(), w, x),
    }
}

// Whether a console in state s may have its mark as it is. The state is a parameter of its own, as in the definitions.
#[tactic(auto, unfolding(crate::specs::Clauses::mark_ok))]
fn is_mark_ok(x: Console, s: State) -> bool
    ensures { result ≡ mark_ok x s }
{
    match s {
        State::Asking(_) => {
            (x.answered != 0 || !x.alike) && (set_size(x.answered) != 1 || x.alike)
        }
        State::Idle | State::Telling(_) | State::Down => !x.alike,
    }
}

#[tactic(auto, unfolding(crate::specs::Clauses::console_ok))]
fn is_console_ok(setup: Setup, c: ConsoleId, x: Console) -> bool
    ensures { result ≡ console_ok setup c.0 x }
{
    if !is_mark_ok(x, x.state) || x.life > MAX_LIFE {
        return false;
    }
    if c.0 < setup.m {
        is_tag_ok(setup.m, x.best, x.value) && is_state_ok(setup, x, x.state)
    } else {
        x.state.is_idle() && is_rest_ok(x) && x.life == 0
    }
}

// Console by console. (The cast: cells.rt of parts.)
pub fn are_consoles_ok(setup: Setup, consoles: &[Console; CONSOLES]) -> bool
    ensures { result ≡ consoles_ok setup consoles.now }
{
    every(MAX_CONSOLES, |c| {
        is_console_ok(setup, ConsoleId(c), consoles[c as usize])
    })
}
