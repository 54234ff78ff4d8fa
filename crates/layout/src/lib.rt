// A board in words of 32 bits: which words stand for a board, reading it from them, and writing it into them.
#![tactic(auto)]

use parts::{CELLS, CONSOLES, NODES};

mod cells;
mod consoles;
mod in_words;
mod nodes;
pub mod reading;
mod setups;
mod standing;
mod tags;
pub mod writing;

// The version of the layout, a word of each board.
pub const LAYOUT: u32 = 2;

// A board is n, m, its release and the version, then its nodes, its consoles and its cells, each kind from an offset on
// and in so many words each.
const SETUP_WORDS: usize = 4;

const NODE_WORDS: usize = 4;

const CONSOLE_WORDS: usize = 8;

const CELL_WORDS: usize = 4;

const NODES_AT: usize = SETUP_WORDS;

const CONSOLES_AT: usize = NODES_AT + NODES * NODE_WORDS;

const CELLS_AT: usize = CONSOLES_AT + CONSOLES * CONSOLE_WORDS;

pub const BOARD_WORDS: usize = CELLS_AT + CELLS * CELL_WORDS;
