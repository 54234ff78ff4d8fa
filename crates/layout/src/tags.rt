// A tag in two words, its ts and its owner: console and life share a word, the console in the high half.
ghost use Rattle.std.specs.Prelude.{◌≡◌, ◌%◌};
ghost use Rattle.layout.specs.Layout.{half_word, tag_of, owner_word, TagFits};

use parts::Tag;

// So many numbers fit half a word.
const HALF_WORD: u32 = 65536;

// The low half of a word. Any such half is a u16.
pub(crate) fn low_half(word: u32) -> u16
    ensures { result ≡ word % half_word }
{
    u16::try_from(word % HALF_WORD).unwrap_or(0)
}

#[tactic(auto, unfolding(crate::specs::Layout::tag_of))]
pub(crate) fn tag_of(ts: u32, owner: u32) -> Tag
    ensures { result ≡ tag_of ts owner }
{
    Tag {
        ts,
        console: low_half(owner / HALF_WORD),
        life: low_half(owner),
    }
}

// It also tells what the tag's type says, since reading back rests on it.
#[tactic(auto, unfolding(crate::specs::Layout::owner_word))]
pub(crate) fn owner_word(tag: Tag) -> u32
    ensures value { result ≡ owner_word tag }
    ensures typed { TagFits tag }
{
    u32::from(tag.console) * HALF_WORD + u32::from(tag.life)
}
