// Which words stand for a board: those that some board is written as.
ghost use Rattle.std.specs.Prelude.{◌≡◌};
ghost use Rattle.std.specs.List.{list_all};
ghost use Rattle.layout.specs.Standing.{parts_stand};

use crate::in_words::{InWords, words_of_each};
use crate::setups::setup_stands;
use crate::{BOARD_WORDS, CELL_WORDS, CELLS_AT, CONSOLE_WORDS, CONSOLES_AT, NODE_WORDS, NODES_AT};
use parts::{CELLS, CONSOLES, Cell, Console, NODES, Node};

// Whether each of these words stands for a part.
fn all_stand<T: InWords<N>, const N: usize, const K: usize>(each: &[[u32; N]; K]) -> bool
    ensures { result ≡ list_all T.stands each.now }
{
    each.iter().all(
        |words| -> bool
            ensures { result ≡ T.stands words.now }
        { T::stand(words) },
    )
}

// Whether the setup and each part stands in the words. Where the setup does not, the parts are not asked. By && throughout
// it proves, and a step of whole runs took 1.08 of what it takes by &.
pub(crate) fn parts_stand(w: &[u32; BOARD_WORDS]) -> bool
    ensures { result ≡ parts_stand w.now }
{
    if !setup_stands(w) {
        return false;
    }
    all_stand::<Node, NODE_WORDS, NODES>(words_of_each(w, NODES_AT))
        & all_stand::<Console, CONSOLE_WORDS, CONSOLES>(words_of_each(w, CONSOLES_AT))
        & all_stand::<Cell, CELL_WORDS, CELLS>(words_of_each(w, CELLS_AT))
}
