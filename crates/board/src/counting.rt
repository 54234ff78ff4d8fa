// The frames in flight: how many a board's cells hold, and how many they hold once a frame goes into some of them. No cell
// is changed.
ghost use Rattle.std.specs.Prelude.{◌≡◌, ◌+◌, ◌≤◌, ◌<◌, length, replicate};
ghost use Rattle.std.specs.List.{splice};
ghost use Rattle.parts.specs.Limits.{max_nodes, max_consoles, max_cells};
ghost use Rattle.parts.specs.Parts.{cell_of, set_frame, set_row};
ghost use Rattle.board.specs.Preview.{frames_in};

use parts::cells::cell_index;
use parts::{CELLS, Cell, ConsoleId, Frame, NodeId};

// How many of the cells, which are some of a board's, hold a frame.
#[tactic(auto, unfolding(crate::specs::Preview::frames_in), using(crate::proofs::FramesLaws::at_most))]
pub(crate) fn frames_in(cells: &[Cell]) -> u32
    requires { length cells.now ≤ max_cells }
    ensures value { result ≡ frames_in cells.now }
    ensures most { result ≤ max_cells }
{
    cells.iter().filter(|cell| !cell.frame.is_nothing()).count() as u32
}

// The same once f goes into so many cells from a place on: those before, the new ones, those after.
#[tactic(auto, using(crate::proofs::FramesLaws::filled, crate::proofs::FramesLaws::rest_all))]
fn frames_with(cells: &[Cell; CELLS], from: usize, many: u32, f: Frame) -> u32
    requires { from + many ≤ max_cells }
    ensures { result ≡ frames_in (splice cells.now from (from + many) (replicate many (cell_of f))) }
{
    let new = if f.is_nothing() { 0 } else { many };
    frames_in(&cells[..from]) + new + frames_in(&cells[from + many as usize..])
}

// Once f goes into the cell of console c and node k.
#[tactic(auto, unfolding(parts::specs::Parts::cell_index), using(crate::proofs::FramesLaws::cell_filled))]
pub(crate) fn frames_with_one(cells: &[Cell; CELLS], c: ConsoleId, k: NodeId, f: Frame) -> u32
    requires { (c.0 < max_consoles) × (k.0 < max_nodes) }
    ensures { result ≡ frames_in (set_frame cells.now c.0 k.0 f) }
{
    frames_with(cells, cell_index(c, k), 1, f)
}

// Once f goes into the cells of console c and each of n nodes.
#[tactic(auto, unfolding(parts::specs::Parts::cell_index), using(crate::proofs::FramesLaws::row_filled))]
pub(crate) fn frames_with_row(cells: &[Cell; CELLS], c: ConsoleId, n: u32, f: Frame) -> u32
    requires { (c.0 < max_consoles) × (n ≤ max_nodes) }
    ensures { result ≡ frames_in (set_row cells.now c.0 n f) }
{
    frames_with(cells, cell_index(c, NodeId(0)), n, f)
}
