// The clauses on cells.
ghost use Rattle.std.specs.Prelude.{◌≡◌, ◌<◌};
ghost use Rattle.parts.specs.Limits.{max_nodes, max_consoles};
ghost use Rattle.parts.specs.Parts.{frame_in};
ghost use Rattle.well_formed.specs.Clauses.{frame_ok, cell_ok, row_ok, cells_ok};

use crate::every::every;
use crate::tags::is_tag_ok;
use parts::cells::cell_index;
use parts::{CELLS, Cell, ConsoleId, Frame, MAX_CONSOLES, MAX_NODES, NodeId, Setup};

#[tactic(auto, unfolding(crate::specs::Clauses::frame_ok))]
fn is_frame_ok(setup: Setup, f: Frame) -> bool
    ensures { result ≡ frame_ok setup f }
{
    match f {
        Frame::Reply(t, v) | Frame::Put(t, v) => is_tag_ok(setup.m, t, v),
        Frame::Nothing | Frame::Ask | Frame::Ack => true,
    }
}

#[tactic(auto, unfolding(crate::specs::Clauses::cell_ok))]
fn is_cell_ok(setup: Setup, c: ConsoleId, k: NodeId, f: Frame) -> bool
    ensures { result ≡ cell_ok setup c.0 k.0 f }
{
    if c.0 < setup.m && k.0 < setup.n {
        is_frame_ok(setup, f)
    } else {
        f.is_nothing()
    }
}

// The cell of console c and node k.
#[tactic(auto, unfolding(parts::specs::Parts::frame_in, parts::specs::Parts::cell_index))]
fn is_cell_at_ok(setup: Setup, cells: &[Cell; CELLS], c: ConsoleId, k: NodeId) -> bool
    requires { (c.0 < max_consoles) × (k.0 < max_nodes) }
    ensures { result ≡ cell_ok setup c.0 k.0 (frame_in cells.now c.0 k.0) }
{
    is_cell_ok(setup, c, k, cells[cell_index(c, k)].frame)
}

// Console c's cells.
fn is_row_ok(setup: Setup, cells: &[Cell; CELLS], c: ConsoleId) -> bool
    requires { c.0 < max_consoles }
    ensures { result ≡ row_ok setup cells.now c.0 }
{
    every(MAX_NODES, |k| is_cell_at_ok(setup, cells, c, NodeId(k)))
}

// Cell by cell, row by row.
pub fn are_cells_ok(setup: Setup, cells: &[Cell; CELLS]) -> bool
    ensures { result ≡ cells_ok setup cells.now }
{
    every(MAX_CONSOLES, |c| is_row_ok(setup, cells, ConsoleId(c)))
}
