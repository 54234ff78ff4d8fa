// The calls: each puts one step to the board in the lent words w, and writes the answer into the lent words s and the
// next board back into w (Called).
ghost use Rattle.std.specs.Prelude.{◌≡◌, ◌+◌, ◌≤◌, cond, length};
ghost use Rattle.parts.specs.declared.Release.TheVariants.{One, Two};
ghost use Rattle.board.specs.Steps.{setup_of, fresh, begin_read, begin_write, node_down, console_down, node_up, restart};
ghost use Rattle.board.specs.Deliver.{deliver};
ghost use Rattle.layout.specs.Layout.{board_words, encoded};
ghost use Rattle.layout.specs.Standing.{decoded};
ghost use Rattle.hatukeno.specs.Calls.{answer_words, said_fields, put_answer, Called};

use crate::lengths::{ANSWER_WORDS, STEP_WORDS, fits};
use board::{Answer, Board};
use layout::reading::decode;
use layout::writing::{encode, put_words};
use parts::outcomes::compared_number;
use parts::{ConsoleId, NodeId, Outcome, Release};

// The words of an answer, or of a preview: what is sixth differs.
#[tactic(auto, unfolding(crate::specs::Calls::said_fields))]
pub(crate) fn said_fields(outcome: Outcome, refusal: u32, sixth: u32) -> [u32; ANSWER_WORDS]
    ensures { result ≡ said_fields outcome refusal sixth }
{
    let tag = outcome.tag();
    [
        outcome.number(),
        refusal,
        tag.ts,
        u32::from(tag.console),
        outcome.value(),
        sixth,
        u32::from(tag.life),
    ]
}

// Writes the answer into seven words from p on, as put_words takes words and place. The caller has seen that they are
// there.
#[tactic(auto, unfolding(crate::specs::Calls::put_answer, crate::specs::Calls::answer_fields))]
pub(crate) fn put_answer(s: &mut [u32], p: usize, a: Answer)
    requires { p + answer_words ≤ length s.old }
    ensures { s.new ≡ put_answer s.old p a }
{
    let sixth = compared_number(a.compared);
    put_words(s, p, &said_fields(a.outcome, a.refusal_number(), sixth));
}

// Writes the answer a of a step, and the next board unless the step was refused; nothing if memory is short.
fn respond(w: &mut [u32], s: &mut [u32], a: Answer) -> u32
    ensures { Called a w.old s.old result w.new s.new }
{
    match fits(w.len(), STEP_WORDS, s.len()) {
        Err(short) => u32::from(short),
        Ok(()) => {
            put_answer(s, 0, a);
            if a.outcome.is_accepted() {
                encode(w, a.board);
            }
            0
        }
    }
}

// The fresh board of n nodes and m consoles, under release 1. Each release has a call of its own, so that no caller can
// ask for a release that there is not.
#[unsafe(no_mangle)]
pub extern "C" fn board_fresh(w: &mut [u32], s: &mut [u32], n: u32, m: u32) -> u32
    ensures { Called (fresh (setup_of n m One)) w.old s.old result w.new s.new }
{
    respond(w, s, Board::fresh(n, m))
}

// The same under release 2.
#[unsafe(no_mangle)]
pub extern "C" fn board_fresh_release_2(w: &mut [u32], s: &mut [u32], n: u32, m: u32) -> u32
    ensures { Called (fresh (setup_of n m Two)) w.old s.old result w.new s.new }
{
    respond(w, s, Board::fresh_under(n, m, Release::Two))
}

// Console c begins a read.
#[unsafe(no_mangle)]
pub extern "C" fn board_begin_read(w: &mut [u32], s: &mut [u32], c: u32) -> u32
    ensures { Called (begin_read (decoded w.old) c) w.old s.old result w.new s.new }
{
    respond(w, s, decode(w).begin_read(ConsoleId(c)))
}

// Console c begins a write of v.
#[unsafe(no_mangle)]
pub extern "C" fn board_begin_write(w: &mut [u32], s: &mut [u32], c: u32, v: u32) -> u32
    ensures { Called (begin_write (decoded w.old) c v) w.old s.old result w.new s.new }
{
    respond(w, s, decode(w).begin_write(ConsoleId(c), v))
}

// The frame between console c and node k is delivered.
#[unsafe(no_mangle)]
pub extern "C" fn board_deliver(w: &mut [u32], s: &mut [u32], c: u32, k: u32) -> u32
    ensures { Called (deliver (decoded w.old) c k) w.old s.old result w.new s.new }
{
    respond(w, s, decode(w).deliver(ConsoleId(c), NodeId(k)))
}

// Node k goes down.
#[unsafe(no_mangle)]
pub extern "C" fn board_node_down(w: &mut [u32], s: &mut [u32], k: u32) -> u32
    ensures { Called (node_down (decoded w.old) k) w.old s.old result w.new s.new }
{
    respond(w, s, decode(w).node_down(NodeId(k)))
}

// Console c goes down.
#[unsafe(no_mangle)]
pub extern "C" fn board_console_down(w: &mut [u32], s: &mut [u32], c: u32) -> u32
    ensures { Called (console_down (decoded w.old) c) w.old s.old result w.new s.new }
{
    respond(w, s, decode(w).console_down(ConsoleId(c)))
}

// Node k comes back.
#[unsafe(no_mangle)]
pub extern "C" fn board_node_up(w: &mut [u32], s: &mut [u32], k: u32) -> u32
    ensures { Called (node_up (decoded w.old) k) w.old s.old result w.new s.new }
{
    respond(w, s, decode(w).node_up(NodeId(k)))
}

// Console c is restarted.
#[unsafe(no_mangle)]
pub extern "C" fn board_restart(w: &mut [u32], s: &mut [u32], c: u32) -> u32
    ensures { Called (restart (decoded w.old) c) w.old s.old result w.new s.new }
{
    respond(w, s, decode(w).restart(ConsoleId(c)))
}
