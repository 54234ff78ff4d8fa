// A turn of the link. The lent words s hold the picker's state, and get the next one and what the link sends; the words of
// the board, w, are only read (TurnCalled).
ghost use Rattle.std.specs.Prelude.{◌≡◌, ◌≤◌, length};
ghost use Rattle.hatukeno.specs.Calls.{answer_words};
ghost use Rattle.hatukeno.specs.Turns.{picker_in, turn_fields, put_turn, TurnCalled};

use crate::lengths::{ANSWER_WORDS, STEP_WORDS, fits};
use layout::reading::decode;
use layout::writing::put_words;
use parts::{ConsoleId, NodeId};
use picker::{Next, Pair, Picker, Turn};

// The state in the first three words. The caller has seen that they are there.
#[tactic(auto, unfolding(crate::specs::Turns::picker_in))]
fn picker_in(s: &[u32]) -> Picker
    requires { answer_words ≤ length s.now }
    ensures { result ≡ picker_in s.now }
{
    Picker {
        place: s[0],
        last: Pair {
            console: ConsoleId(s[1]),
            node: NodeId(s[2]),
        },
    }
}

// The seven words: the state, and what is sent.
#[tactic(auto, unfolding(crate::specs::Turns::turn_fields))]
fn turn_fields(t: Turn) -> [u32; ANSWER_WORDS]
    ensures { result ≡ turn_fields t }
{
    let (number, console, node) = match t.next {
        Next::Nothing => (0, 0, 0),
        Next::Tile => (1, 0, 0),
        Next::Frame(pair) => (2, pair.console.0, pair.node.0),
    };
    [
        t.picker.place,
        t.picker.last.console.0,
        t.picker.last.node.0,
        number,
        t.refusal_number(),
        console,
        node,
    ]
}

// Writes them. The caller has seen that they are there.
#[tactic(auto, unfolding(crate::specs::Turns::put_turn))]
fn put_turn(s: &mut [u32], t: Turn)
    requires { answer_words ≤ length s.old }
    ensures { s.new ≡ put_turn s.old t }
{
    put_words(s, 0, &turn_fields(t));
}

// What the link sends next: the frame of a pair, a tile, of which one waits unless the number is 0, or nothing.
#[tactic(auto, using(crate::proofs::CallsLaws::turn_called, crate::proofs::CallsLaws::no_turn, crate::proofs::CallsLaws::one_step, crate::proofs::CallsLaws::long_answer, crate::proofs::CallsLaws::short_number))]
#[unsafe(no_mangle)]
pub extern "C" fn board_turn(w: &[u32], s: &mut [u32], tile_waits: u32) -> u32
    ensures { TurnCalled w.now s.old tile_waits result s.new }
{
    match fits(w.len(), STEP_WORDS, s.len()) {
        Err(short) => u32::from(short),
        Ok(()) => {
            let turn = picker_in(s).turn(&decode(w), tile_waits != 0);
            put_turn(s, turn);
            0
        }
    }
}
