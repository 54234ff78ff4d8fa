// Question 1, and a board that it refuses.
ghost use Rattle.std.specs.Prelude.{◌≡◌};
ghost use Rattle.board.specs.Boards.{no_board};
ghost use Rattle.board.specs.WellFormed.{well_formed};

use crate::Board;
use parts::{Release, Setup};
use well_formed::cells::are_cells_ok;
use well_formed::consoles::are_consoles_ok;
use well_formed::nodes::are_nodes_ok;
use well_formed::ranges::is_setup_ok;

impl Board {
    // Whether the board is well formed, on any board whatever.
    #[tactic(auto, unfolding(crate::specs::WellFormed::well_formed))]
    pub fn is_well_formed(&self) -> bool
        ensures { result ≡ well_formed self.now }
    {
        is_setup_ok(self.setup)
            && are_nodes_ok(self.setup, &self.nodes)
            && are_consoles_ok(self.setup, &self.consoles)
            && are_cells_ok(self.setup, &self.cells)
    }

    // The board of no nodes and no consoles, which is not well formed: what stands for no board is read as this one.
    pub fn none() -> Board
        ensures { result ≡ no_board }
    {
        Board::made(Setup {
            n: 0,
            m: 0,
            release: Release::One,
        })
    }
}
