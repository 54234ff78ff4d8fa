// The call that puts a whole list of steps to the board in the lent words w, and writes their answers into the lent words s
// and the last board back into w (Ran).
ghost use Rattle.std.specs.Prelude.{◌≡◌, ◌+◌, ◌*◌, ◌≤◌, length};
ghost use Rattle.layout.specs.Layout.{board_words};
ghost use Rattle.hatukeno.specs.Calls.{answer_words};
ghost use Rattle.hatukeno.specs.Lists.{midway, answers, kept_after, steps_in, last_of, answers_of, Ran};

use crate::Midway;
use crate::calls::put_answer;
use crate::lengths::{ANSWER_WORDS, STEP_WORDS, fits};
use board::Board;
use layout::reading::decode;
use layout::writing::encode;
use verbs::Checked;

// Puts the steps to the board b, with their answers into s. The caller has seen that s reaches for them. An answer's place
// is counted, since std says nothing of what a slice's `as_chunks_mut` leaves behind.
fn run_steps(q: &[u32], s: &mut [u32], b: Board) -> Midway
    requires { steps_in (length q.now) * answer_words ≤ length s.old }
    ensures { (result ≡ midway q.now b (steps_in (length q.now))) × (s.new ≡ answers q.now b s.old (steps_in (length q.now))) }
{
    let mut checked = Checked::new(b);
    let mut moved = false;
    let (steps, _) = q.as_chunks::<STEP_WORDS>();
    for (i, [verb, x, y]) in steps.iter().enumerate() {
        let answer = checked.put(*verb, *x, *y);
        put_answer(s, i * ANSWER_WORDS, answer);
        moved |= answer.outcome.is_accepted();
    }
    Midway {
        board: checked.board,
        moved,
    }
}

// Puts the list to the board in w, with the answers into s and the last board back into w. The caller has seen to the
// lengths. The words stay a slice, as decode and encode take them.
#[tactic(auto, unfolding(crate::specs::Lists::kept_after))]
fn run_list(w: &mut [u32], q: &[u32], s: &mut [u32])
    requires { (board_words ≤ length w.old) × (steps_in (length q.now) * answer_words ≤ length s.old) }
    ensures { (w.new ≡ kept_after w.old (last_of w.old q.now)) × (s.new ≡ answers_of w.old q.now s.old) }
{
    let x = run_steps(q, s, decode(w));
    if x.moved {
        encode(w, x.board);
    }
}

// The list of steps q: three words each, the step's number and its two numbers.
#[unsafe(no_mangle)]
pub extern "C" fn board_run(w: &mut [u32], q: &[u32], s: &mut [u32]) -> u32
    ensures { Ran w.old q.now s.old result w.new s.new }
{
    match fits(w.len(), q.len(), s.len()) {
        Err(short) => u32::from(short),
        Ok(()) => {
            run_list(w, q, s);
            0
        }
    }
}
