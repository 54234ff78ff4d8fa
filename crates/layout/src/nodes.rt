// A node in words: up, ts and owner of its tag, and value.
ghost use Rattle.layout.specs.Layout.{node_from, node_fields, NodeFits};
ghost use Rattle.layout.specs.Wide.{node_wide};
ghost use Rattle.layout.specs.Standing.{node_stands};

use crate::NODE_WORDS;
use crate::in_words::{InWords, LAST_MARK};
use crate::tags::{owner_word, tag_of};
use parts::Node;

impl InWords<NODE_WORDS> for Node {
    ghost fits = { NodeFits };

    ghost from = { node_from };

    ghost stands = { node_stands };

    ghost fields = { node_fields };

    ghost wide = { node_wide };

    #[tactic(auto, unfolding(crate::specs::Layout::node_from))]
    fn from_words(words: &[u32; NODE_WORDS]) -> Node {
        let [up, ts, owner, value] = *words;
        Node {
            up: up != 0,
            tag: tag_of(ts, owner),
            value,
        }
    }

    #[tactic(auto, unfolding(crate::specs::Standing::node_stands))]
    fn stand(words: &[u32; NODE_WORDS]) -> bool {
        words[0] <= LAST_MARK
    }

    #[tactic(auto, unfolding(crate::specs::Layout::node_fields))]
    fn to_words(self) -> [u32; NODE_WORDS] {
        [
            u32::from(self.up),
            self.tag.ts,
            owner_word(self.tag),
            self.value,
        ]
    }
}
