// The limits of a board, and making one.
ghost use Rattle.std.specs.Prelude.{◌≡◌};
ghost use Rattle.parts.specs.declared.Release.TheVariants.{One};
ghost use Rattle.board.specs.Boards.{fresh_board};
ghost use Rattle.board.specs.Steps.{setup_of, smallest, fresh};

use crate::refusals::Refusal;
use crate::{Answer, Board};
use parts::{CELLS, CONSOLES, Cell, Console, Frame, NODES, Node, Outcome, Release, Setup};
use well_formed::ranges::{is_console_count, is_node_count};

impl Board {
    pub const MAX_NODES: u32 = parts::MAX_NODES;

    pub const MAX_CONSOLES: u32 = parts::MAX_CONSOLES;

    pub const MAX_TS: u32 = parts::MAX_TS;

    pub const MAX_LIFE: u16 = parts::MAX_LIFE;

    // A board of n nodes and m consoles on which nothing has happened, under release 1.
    pub fn fresh(n: u32, m: u32) -> Answer
        ensures { result ≡ fresh (setup_of n m One) }
    {
        Board::fresh_under(n, m, Release::One)
    }

    // The same under a release of the caller's choice, which the board keeps. Refused with 2 or 3 if n or m is out of range;
    // the board handed back is then the fresh one of one node and one console, under release 1.
    #[tactic(auto, unfolding(crate::specs::Steps::fresh, decisions::specs::Questions::guarded))]
    pub fn fresh_under(n: u32, m: u32, release: Release) -> Answer
        ensures { result ≡ fresh (setup_of n m release) }
    {
        if !is_node_count(n) {
            return Answer::refused(Refusal::BadNodeCount, Board::smallest());
        }
        if !is_console_count(m) {
            return Answer::refused(Refusal::BadConsoleCount, Board::smallest());
        }
        Answer::accepted(Outcome::Done, Board::made(Setup { release, n, m }))
    }

    // The board that a refused making hands back.
    fn smallest() -> Board
        ensures { result ≡ fresh_board smallest }
    {
        Board::made(Setup {
            n: 1,
            m: 1,
            release: Release::One,
        })
    }

    // The fresh board of a setup.
    #[tactic(auto, unfolding(crate::specs::Boards::fresh_board))]
    pub(crate) fn made(setup: Setup) -> Board
        ensures { result ≡ fresh_board setup }
    {
        let cell = Cell {
            frame: Frame::Nothing,
        };
        Board {
            setup,
            nodes: [Node::FRESH; NODES],
            consoles: [Console::IDLE; CONSOLES],
            cells: [cell; CELLS],
        }
    }
}
