// A run over an input in chunks. Each chunk, the bytes held of a line and the output stand in lent memory.
ghost use Rattle.std.specs.Prelude.{◌≡◌, ◌≤◌, length, take};
ghost use Rattle.std.proofs.lemmas.List.Edits.{sets};
ghost use Rattle.schedule.specs.Chunks.{started, session_of, last_text, Consumed};

use crate::Position;
use crate::running::Run;
use board::Board;
use csv_lines::LINE_BYTES;
use csv_lines::splitting::{HELD_BYTES, least};

// A run before its first byte: a board of one node and one console.
#[tactic(auto, unfolding(crate::specs::Chunks::started, board::specs::Steps::fresh, decisions::specs::Questions::guarded, well_formed::specs::Clauses::nodes_allowed, well_formed::specs::Clauses::consoles_allowed))]
pub fn start() -> Position
    ensures { result ≡ started }
{
    Position {
        board: Board::fresh(1, 1).board,
        number: 1,
        held: 0,
        consumed: 0,
        wrote: 0,
    }
}

// The bytes of a chunk, and of an output that has room for a line at every one of them.
pub const CHUNK_BYTES: usize = 4096;

pub const OUT_BYTES: usize = CHUNK_BYTES * LINE_BYTES;

// Puts the first n bytes of the chunk to the run, and what they come to at the start of the output. The chunk is a whole
// buffer with a count, as a read leaves it: at a slice of any length the room would have to be required of the caller.
pub fn run_chunk(
    s: Position,
    line: &mut [u8; HELD_BYTES],
    chunk: &[u8; CHUNK_BYTES],
    n: usize,
    out: &mut [u8; OUT_BYTES],
) -> Position
    ensures { Consumed 0 0 s line.old out.old (take n chunk.now) result line.new out.new }
{
    let consumed = least(n, CHUNK_BYTES);
    let mut run = Run::new(s, line, out);
    run.take(&chunk[..consumed]);
    Position {
        board: run.checked.board,
        number: run.number,
        held: run.held,
        consumed,
        wrote: run.wrote,
    }
}

// Ends the input: puts what its last line comes to at the start of the output, and answers how many bytes that is. What
// is held is the last line, if it is not empty; the run is lent a copy, since it may write into what it is lent.
#[tactic(auto, using(crate::proofs::ChunksLaws::end_laws))]
pub fn run_end(s: Position, line: &[u8; HELD_BYTES], out: &mut [u8; OUT_BYTES]) -> usize
    ensures { (result ≤ length out.new) × (result ≡ length (last_text (session_of s line.now))) × (out.new ≡ sets out.old 0 (last_text (session_of s line.now))) }
{
    if s.held == 0 {
        return 0;
    }
    let mut held = *line;
    let mut run = Run::new(s, &mut held, out);
    let n = run.held;
    run.answer(n);
    run.wrote
}
