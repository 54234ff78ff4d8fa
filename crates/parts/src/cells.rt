// The cells of a board: where each stands, and reading one. A place beyond the forty cells is empty.
ghost use Rattle.std.specs.Prelude.{◌≡◌};
ghost use Rattle.parts.specs.Parts.{cell_index, frame_in};

use crate::{CELLS, Cell, ConsoleId, Frame, NODES, NodeId};

// Where the cell of a console and a node stands. The casts stay: std has no From of u32 for usize, which may be narrower.
#[tactic(auto, unfolding(crate::specs::Parts::cell_index))]
pub fn cell_index(c: ConsoleId, k: NodeId) -> usize
    ensures { result ≡ cell_index c.0 k.0 }
{
    c.0 as usize * NODES + k.0 as usize
}

// The frame in the cell of console c and node k.
#[tactic(auto, unfolding(crate::specs::Parts::frame_in))]
pub fn frame_in(cells: &[Cell; CELLS], c: ConsoleId, k: NodeId) -> Frame
    ensures { result ≡ frame_in cells.now c.0 k.0 }
{
    cells
        .get(cell_index(c, k))
        .map_or(Frame::Nothing, |cell| cell.frame)
}
