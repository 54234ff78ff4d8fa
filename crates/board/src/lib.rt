// The board: one register copied on n nodes, its m consoles, and every frame in flight between them.
#![tactic(auto)]

pub use decisions::refusals;
pub use parts::{
    Cell, Console, ConsoleId, Frame, Kind, Node, NodeId, Outcome, Release, Setup, State, Tag,
};
use refusals::Refusal;
use std::cmp::Ordering;

// Document 01's board. Any value of this type may be handed in: one that is not well formed is refused by question 1.
// The cell of console c and node k is cells[c * 5 + k]. (Casts: a constant can call no From.)
#[derive(Clone, Copy)]
pub struct Board {
    pub setup: Setup,
    pub nodes: [Node; Board::MAX_NODES as usize],
    pub consoles: [Console; Board::MAX_CONSOLES as usize],
    pub cells: [Cell; parts::CELLS],
}

// What a step answers: the outcome, its refusal (None: it is accepted), the next board, and how the tag of a reply that it
// took in compared with the old best (None: it took none in). Document 01 names this form, outcome and refusal apart.
#[derive(Clone, Copy)]
pub struct Answer {
    pub outcome: Outcome,
    pub refusal: Option<Refusal>,
    pub board: Board,
    pub compared: Option<Ordering>,
}

// What a delivery would answer, and how many frames would be in flight after it (document 02, Paper 8).
#[derive(Clone, Copy)]
pub struct Preview {
    pub outcome: Outcome,
    pub refusal: Option<Refusal>,
    pub in_flight: u32,
}

mod answers;
mod applying;
mod checking;
mod counting;
mod delivery;
mod looking;
mod making;
mod previewing;
mod steps;
