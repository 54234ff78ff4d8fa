// The picker's turn. Question 1 is asked once, then the pairs are tried in their order, from after the one last picked.
ghost use Rattle.std.specs.Prelude.{◌≡◌, ◌<◌, true};
ghost use Rattle.decisions.specs.Refusals.{refusal_number};
ghost use Rattle.board.specs.WellFormed.{well_formed};
ghost use Rattle.picker.specs.Picking.{start, unused, in_range, current, can_go, frame_first, next_place, last_after, sends, turn_from, turn};

use crate::pairs::first_after;
use crate::{Next, Pair, Picker, Turn};
use board::Board;
use board::refusals::Refusal;
use parts::{ConsoleId, NodeId};

impl Turn {
    // The number of the refusal, or 0.
    pub fn refusal_number(self) -> u32
        ensures { result ≡ refusal_number self.refusal }
    {
        self.refusal.map_or(0, u32::from)
    }
}

impl Picker {
    // The state of a picker that has had no turn: out of range for every board, so that it counts as the start on each.
    pub fn new() -> Picker
        ensures { result ≡ unused }
    {
        Picker {
            place: 0,
            last: Pair {
                console: ConsoleId(u32::MAX),
                node: NodeId(u32::MAX),
            },
        }
    }

    // What the link sends next: the frame of a pair, a tile if one waits, or nothing; and the state for the next turn.
    // Refused with 1 if the board is not well formed: the state is then handed back as it is.
    #[tactic(auto, unfolding(crate::specs::Picking::turn), using(crate::proofs::StatesLaws::current_in_range, board::proofs::WellFormedLaws::n_at_least, board::proofs::WellFormedLaws::m_at_least))]
    pub fn turn(self, b: &Board, tile_waits: bool) -> Turn
        ensures { result ≡ turn self b.now tile_waits }
    {
        if !b.is_well_formed() {
            return Turn {
                next: Next::Nothing,
                refusal: Some(Refusal::NotWellFormed),
                picker: self,
            };
        }
        self.current(b.setup.n, b.setup.m).turn_from(b, tile_waits)
    }

    // This state, or the start if it is out of range for n nodes and m consoles.
    #[tactic(auto, unfolding(crate::specs::Picking::current))]
    fn current(self, n: u32, m: u32) -> Picker
        ensures { result ≡ current n m self }
    {
        if self.place < 4 && self.last.console.0 < m && self.last.node.0 < n {
            self
        } else {
            Picker::start(n, m)
        }
    }

    // The last pair of all: after it comes (0, 0).
    fn start(n: u32, m: u32) -> Picker
        ensures { result ≡ start n m }
    {
        Picker {
            place: 0,
            last: Pair {
                console: ConsoleId(m.saturating_sub(1)),
                node: NodeId(n.saturating_sub(1)),
            },
        }
    }

    // The turn in a state in range, on a board that question 1 has passed.
    #[tactic(auto, unfolding(crate::specs::Picking::turn_from))]
    fn turn_from(self, b: &Board, tile_waits: bool) -> Turn
        requires formed { well_formed b.now ≡ true }
        requires state { in_range b.now.setup.n b.now.setup.m self ≡ true }
        ensures { result ≡ turn_from b.now.setup.n b.now.setup.m (can_go b.now) self tile_waits }
    {
        if self.place == 3 && tile_waits {
            return self.sends(Next::Tile);
        }
        self.sends(frame_first(first_after(b, self.last), tile_waits))
    }

    // The turn that sends x.
    fn sends(self, x: Next) -> Turn
        ensures { result ≡ sends self x }
    {
        Turn {
            next: x,
            refusal: None,
            picker: Picker {
                place: next_place(self.place),
                last: last_after(self.last, x),
            },
        }
    }
}

// A frame if one was found, else a tile if one waits.
fn frame_first(found: Option<Pair>, tile_waits: bool) -> Next
    ensures { result ≡ frame_first found tile_waits }
{
    match found {
        Some(pair) => Next::Frame(pair),
        None if tile_waits => Next::Tile,
        None => Next::Nothing,
    }
}

// The place of the next turn in its four.
fn next_place(place: u32) -> u32
    ensures { result ≡ next_place place }
{
    if place < 3 { place + 1 } else { 0 }
}

// The pair last picked, once x is sent.
fn last_after(last: Pair, x: Next) -> Pair
    ensures { result ≡ last_after last x }
{
    match x {
        Next::Frame(pair) => pair,
        _ => last,
    }
}
