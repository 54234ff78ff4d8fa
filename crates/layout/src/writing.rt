// Writing a board into words.
ghost use Rattle.std.specs.Prelude.{◌≡◌, ◌+◌, ◌*◌, ◌≤◌, ◌<◌, length};
ghost use Rattle.std.specs.List.{All, flat_map};
ghost use Rattle.std.proofs.lemmas.List.Edits.{sets};
ghost use Rattle.layout.specs.Layout.{Typed, board_fields, board_words, encoded};
ghost use Rattle.layout.specs.Standing.{decoded};

use crate::in_words::InWords;
use crate::setups::setup_words;
use crate::{BOARD_WORDS, CELLS_AT, CONSOLES_AT, NODES_AT};
use board::Board;

// Writes the fields into the words from p on. Words that do not reach so far are left as they are. Nothing is added to
// p before that is known, since the sum may be too large for a usize. It is public: words and place stay two parameters.
pub fn put_words(w: &mut [u32], p: usize, fields: &[u32])
    ensures { (p + length fields.now ≤ length w.old → w.new ≡ sets w.old p fields.now) × (length w.old < p + length fields.now → w.new ≡ w.old) }
{
    if w.len() < fields.len() || p > w.len() - fields.len() {
        return;
    }
    // By copy_from_slice, encode takes half as long again (docs/MEASURED.md).
    for (i, field) in fields.iter().enumerate() {
        w[p + i] = *field;
    }
}

// Writes the parts one after the other into a board's words, from word at on. It also tells what the parameter's type
// says, its length and what fits, since reading back rests on it. A part's place is counted, since std says nothing of what
// `as_chunks_mut` leaves behind.
fn put_parts<T: InWords<N>, const N: usize, const K: usize>(
    w: &mut [u32; BOARD_WORDS],
    at: usize,
    parts: &[T; K],
)
    requires { at + K * N ≤ board_words }
    ensures written { w.new ≡ sets w.old at (flat_map T.fields parts.now) }
    ensures long { length parts.now ≡ K }
    ensures fit { All T.fits parts.now }
{
    for (k, part) in parts.iter().enumerate() {
        put_words(w, at + k * N, &part.to_words());
    }
}

// Writes the board over the words. It also tells what the board's type says, since reading back rests on it.
fn put_board(w: &mut [u32; BOARD_WORDS], b: Board)
    ensures written { w.new ≡ board_fields b }
    ensures typed { Typed b }
{
    put_words(w, 0, &setup_words(b.setup));
    put_parts(w, NODES_AT, &b.nodes);
    put_parts(w, CONSOLES_AT, &b.consoles);
    put_parts(w, CELLS_AT, &b.cells);
}

// Writes the board into the first words, from which it can be read back. Words too few for a board are left as they
// are.
pub fn encode(w: &mut [u32], b: Board)
    ensures { (board_words ≤ length w.old → (w.new ≡ encoded w.old b) × (decoded w.new ≡ b)) × (length w.old < board_words → w.new ≡ w.old) }
{
    if let Some(words) = w.first_chunk_mut::<BOARD_WORDS>() {
        put_board(words, b);
    }
}
