// The picker, which says what the link sends next: a frame of the board, a map tile or nothing (document 02, Paper 9).
// It is no step: it changes no board. Its theorems: specs/Claims.antt.
#![tactic(auto)]

use board::refusals::Refusal;
use parts::{ConsoleId, NodeId};

// A console and a node: the console first.
#[derive(Clone, Copy)]
pub struct Pair {
    pub console: ConsoleId,
    pub node: NodeId,
}

// What the picker keeps between turns: its place in the four, 0 to 3, and the pair last picked. Any value of this type
// may be handed in: one that is out of range for the board's n and m counts as the start.
#[derive(Clone, Copy)]
pub struct Picker {
    pub place: u32,
    pub last: Pair,
}

// What the link sends: nothing, a tile, or the frame of a pair.
#[derive(Clone, Copy)]
pub enum Next {
    Nothing,
    Tile,
    Frame(Pair),
}

// What a turn gives: what is sent, the refusal (None: it is taken), and the state for the next turn.
#[derive(Clone, Copy)]
pub struct Turn {
    pub next: Next,
    pub refusal: Option<Refusal>,
    pub picker: Picker,
}

mod pairs;
mod picking;
