// A schedule: lines put to a board one after the other, each answered by one output line.
#![tactic(auto)]

use board::Board;

pub mod chunks;
mod effects;
mod running;

// Where a run over an input stands: the board, the number of the line, how many bytes of the line are held in the lent
// line, and how many bytes the run has consumed of the lent chunk and written into the lent output. It is public, and may
// have any numbers: Run::new takes what can be held.
#[derive(Clone, Copy)]
pub struct Position {
    pub board: Board,
    pub number: u64,
    pub held: usize,
    pub consumed: usize,
    pub wrote: usize,
}
