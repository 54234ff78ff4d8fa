// A console turns from asking to telling.
ghost use Rattle.std.specs.Prelude.{◌≡◌, true, cond, ◌+◌, ◌<◌};
ghost use Rattle.parts.specs.Limits.{max_consoles, max_ts};
ghost use Rattle.parts.specs.Parts.{writes};
ghost use Rattle.decisions.specs.Changes.{next_tag, tells};

use parts::{Console, ConsoleId, MAX_TS, Tag};

// The timestamp after ts, where there is one. That there is one is no fact of a console's type: question 10 asks it of the
// console with the reply taken in, just before it turns.
fn next_ts(ts: u32) -> u32
    ensures { ts < max_ts → result ≡ ts + 1 }
{
    if ts < MAX_TS { ts + 1 } else { ts }
}

// The console's number in a tag, which has room for those of a board.
fn own_number(c: ConsoleId) -> u16
    ensures { c.0 < max_consoles → result ≡ c.0 }
{
    u16::try_from(c.0).unwrap_or(0)
}

// The tag to tell: a write chooses the next one, with its console's life, a read keeps its best.
#[tactic(auto, unfolding(crate::specs::Changes::next_tag))]
fn told_tag(c: ConsoleId, x: Console) -> Tag
    ensures { c.0 < max_consoles → (writes x.state ≡ true → x.best.ts < max_ts) → result ≡ cond (writes x.state) (next_tag c.0 x) x.best }
{
    if !x.state.is_writing() {
        return x.best;
    }
    Tag {
        ts: next_ts(x.best.ts),
        console: own_number(c),
        life: x.life,
    }
}

// The value to tell: a write's wanted value, a read's best. Tag and value come apart, as in the definition.
fn told_value(x: Console) -> u32
    ensures { result ≡ cond (writes x.state) x.wanted x.value }
{
    if x.state.is_writing() {
        x.wanted
    } else {
        x.value
    }
}

// The console as it turns, where a tag has room for its number and a write's timestamp can grow (question 10).
#[tactic(auto, unfolding(crate::specs::Changes::tells))]
pub fn tell(c: ConsoleId, x: Console) -> Console
    ensures { c.0 < max_consoles → (writes x.state ≡ true → x.best.ts < max_ts) → result ≡ tells c.0 x }
{
    Console {
        state: x.state.to_telling(),
        answered: 0,
        best: told_tag(c, x),
        value: told_value(x),
        alike: false,
        ..x
    }
}
