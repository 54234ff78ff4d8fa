// The order of tags by one number for each, and how one compares with another.
ghost use Rattle.std.specs.Prelude.{◌≡◌, ◌<◌};
ghost use Rattle.parts.specs.Limits.{max_consoles};
ghost use Rattle.parts.specs.Tags.{greater, life_room, key, compared};

use crate::Tag;
use std::cmp::Ordering;

// How many lives a tag has room for.
const LIFE_ROOM: u64 = 65536;

// No derived order: document 02 has tags compared by one number each (Paper 5), and an order by that number is lawful only
// below console number 8.
impl Tag {
    // The tag before any write.
    pub const ZERO: Tag = Tag {
        ts: 0,
        console: 0,
        life: 0,
    };

    // One number for the tag (document 02, Papers 5 and 7). In 64 bits there is room for every tag. It also tells what
    // the type says of a life, since the order by numbers rests on it.
    fn key(self) -> u64
        ensures value { result ≡ key self }
        ensures typed { self.life < life_room }
    {
        (u64::from(self.ts) * 8 + u64::from(self.console)) * LIFE_ROOM + u64::from(self.life)
    }

    // Whether this tag is greater than b. Document 01 compares tags only where both console numbers are below 8;
    // elsewhere the result is left open.
    pub fn is_greater(self, b: Tag) -> bool
        ensures { self.console < max_consoles → b.console < max_consoles → result ≡ greater self b }
    {
        self.key() > b.key()
    }

    // How this tag compares with the tag best, where both console numbers are below 8.
    pub fn compared_with(self, best: Tag) -> Ordering
        ensures { self.console < max_consoles → best.console < max_consoles → result ≡ compared self best }
    {
        self.key().cmp(&best.key())
    }
}
