// How the steps change a node and a console, and what each step but fresh comes to. These functions are for the board's steps.
#![tactic(auto)]

use parts::{Console, Frame, Node, Outcome};
use refusals::Refusal;
use std::cmp::Ordering;

// A reply taken in: the console with it, and how its tag compared with the best tag before it.
#[derive(Clone, Copy)]
pub struct TakenIn {
    pub console: Console,
    pub compared: Ordering,
}

// The part that a step changes beside the cells: neither, its console or its node.
#[derive(Clone, Copy)]
pub enum Part {
    Neither,
    ConsoleTo(Console),
    NodeTo(Node),
}

// What becomes of the cells: they stay, or a frame goes into the cell of the step's console and node, or into all n of its console's. Where a cell
// empties, that frame is Nothing.
#[derive(Clone, Copy)]
pub enum Sent {
    Keep,
    One(Frame),
    Row(Frame),
}

// An accepted step: its outcome, how the tag of a reply compared (document 02, Paper 3; None: it took none in), and what
// becomes of the board's parts and cells.
#[derive(Clone, Copy)]
pub struct Change {
    pub outcome: Outcome,
    pub compared: Option<Ordering>,
    pub part: Part,
    pub sent: Sent,
}

// What a step comes to: its refusal, or what it changes.
pub type Decision = Result<Change, Refusal>;

pub mod accepting;
pub mod consoles;
pub mod delivery;
pub mod hearing;
pub mod nodes;
pub mod refusals;
pub mod steps;
pub mod telling;
