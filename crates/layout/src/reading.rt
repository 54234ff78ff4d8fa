// Reading a board from words. Any number is read as something; decode refuses what stands for no board.
ghost use Rattle.std.specs.Prelude.{◌≡◌, map};
ghost use Rattle.layout.specs.Layout.{board_in};
ghost use Rattle.layout.specs.Standing.{decoded};

use crate::in_words::{InWords, words_of_each};
use crate::setups::setup_from;
use crate::standing::parts_stand;
use crate::{BOARD_WORDS, CELLS_AT, CONSOLES_AT, NODES_AT};
use board::Board;

// Reads parts, each from its words, over those that are there.
fn read_parts<T: InWords<N>, const N: usize, const K: usize>(
    parts: &mut [T; K],
    each: &[[u32; N]; K],
)
    ensures { parts.new ≡ map T.from each.now }
{
    // By parts.iter_mut().zip(each), as was tried, a proof has no fact of what the parts end as, only of their number.
    for (k, words) in each.iter().enumerate() {
        parts[k] = T::from_words(words);
    }
}

// Reads the board in the words over the one that is there.
fn read_board(board: &mut Board, w: &[u32; BOARD_WORDS])
    ensures { board.new ≡ board_in w.now }
{
    board.setup = setup_from(w);
    read_parts(&mut board.nodes, words_of_each(w, NODES_AT));
    read_parts(&mut board.consoles, words_of_each(w, CONSOLES_AT));
    read_parts(&mut board.cells, words_of_each(w, CELLS_AT));
}

// The board in the first words. Words that stand for no board, too few of them too, are read as one that is not well
// formed.
pub fn decode(w: &[u32]) -> Board
    ensures { result ≡ decoded w.now }
{
    let Some(words) = w.first_chunk::<BOARD_WORDS>() else {
        return Board::none();
    };
    if !parts_stand(words) {
        return Board::none();
    }
    let mut board = Board::none();
    read_board(&mut board, words);
    board
}
