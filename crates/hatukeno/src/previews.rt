// The preview of a delivery: its answer goes into the lent words s; those of the board, w, are only read (Previewed).
ghost use Rattle.std.specs.Prelude.{◌≡◌, ◌≤◌, length};
ghost use Rattle.board.specs.Preview.{preview};
ghost use Rattle.layout.specs.Standing.{decoded};
ghost use Rattle.hatukeno.specs.Calls.{answer_words};
ghost use Rattle.hatukeno.specs.Previews.{put_preview, Previewed};

use crate::calls::said_fields;
use crate::lengths::{STEP_WORDS, fits};
use board::Preview;
use layout::reading::decode;
use layout::writing::put_words;
use parts::{ConsoleId, NodeId};

// Writes the answer into the first seven words. The caller has seen that they are there.
#[tactic(auto, unfolding(crate::specs::Previews::put_preview, crate::specs::Previews::preview_fields))]
fn put_preview(s: &mut [u32], p: Preview)
    requires { answer_words ≤ length s.old }
    ensures { s.new ≡ put_preview s.old p }
{
    put_words(
        s,
        0,
        &said_fields(p.outcome, p.refusal_number(), p.in_flight),
    );
}

// What delivering the frame between console c and node k would answer, and the frames in flight after it.
#[tactic(auto, using(crate::proofs::CallsLaws::previewed, crate::proofs::CallsLaws::not_previewed, crate::proofs::CallsLaws::one_step, crate::proofs::CallsLaws::long_answer, crate::proofs::CallsLaws::short_number))]
#[unsafe(no_mangle)]
pub extern "C" fn board_preview(w: &[u32], s: &mut [u32], c: u32, k: u32) -> u32
    ensures { Previewed (preview (decoded w.now) c k) w.now s.old result s.new }
{
    match fits(w.len(), STEP_WORDS, s.len()) {
        Err(short) => u32::from(short),
        Ok(()) => {
            put_preview(s, decode(w).preview(ConsoleId(c), NodeId(k)));
            0
        }
    }
}
