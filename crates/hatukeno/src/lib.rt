// The calls for Rust and C, on a board in words of memory that the caller lends.
#![tactic(auto)]

use board::Board;

mod calls;
mod lengths;
mod lists;
mod previews;
mod shifts;
mod turns;

// The board midway through a list of steps, and whether one of them has been accepted. No Option: by the definition
// (midway) the next step goes on from the board either way.
#[derive(Clone, Copy)]
pub struct Midway {
    pub board: Board,
    pub moved: bool,
}

// What the check of a shift's record answers: the refusal or 0; the rule at fault, or 0 if the shift is in order; the
// place of the record at fault, or 0; and that of the other record, or the greatest number there is if there is none.
#[repr(C)]
#[derive(Clone, Copy)]
pub struct Verdict {
    pub refusal: u32,
    pub rule: u32,
    pub place: usize,
    pub other: usize,
}
