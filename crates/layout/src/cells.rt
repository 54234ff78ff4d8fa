// A cell in words: its frame's number, and the frame's tag and value, or zeros.
ghost use Rattle.std.specs.Prelude.{◌≡◌};
ghost use Rattle.layout.specs.Layout.{frame_of, frame_number, frame_tag, frame_value, cell_from, cell_fields, CellFits};
ghost use Rattle.layout.specs.Wide.{cell_wide};
ghost use Rattle.layout.specs.Standing.{cell_stands};

use crate::CELL_WORDS;
use crate::in_words::InWords;
use crate::tags::{owner_word, tag_of};
use parts::{Cell, Frame, Tag};

// The last number of a frame.
const LAST_FRAME: u32 = 4;

impl InWords<CELL_WORDS> for Cell {
    ghost fits = { CellFits };

    ghost from = { cell_from };

    ghost stands = { cell_stands };

    ghost fields = { cell_fields };

    ghost wide = { cell_wide };

    #[tactic(auto, unfolding(crate::specs::Layout::cell_from))]
    fn from_words(words: &[u32; CELL_WORDS]) -> Cell {
        let [frame, ts, owner, value] = *words;
        Cell {
            frame: frame_of(frame, tag_of(ts, owner), value),
        }
    }

    #[tactic(auto, unfolding(crate::specs::Standing::cell_stands, crate::specs::Standing::frame_stands))]
    fn stand(words: &[u32; CELL_WORDS]) -> bool {
        let [frame, ts, owner, value] = *words;
        frame <= LAST_FRAME && (frame == 2 || frame == 3 || (ts == 0 && owner == 0 && value == 0))
    }

    #[tactic(auto, unfolding(crate::specs::Layout::cell_fields))]
    fn to_words(self) -> [u32; CELL_WORDS] {
        let (tag, value) = carried(self.frame);
        [frame_number(self.frame), tag.ts, owner_word(tag), value]
    }
}

// Functions and no From: neither a frame nor u32 is a type of this crate.
#[tactic(auto, unfolding(crate::specs::Layout::frame_of))]
fn frame_of(number: u32, tag: Tag, value: u32) -> Frame
    ensures { result ≡ frame_of number tag value }
{
    match number {
        0 => Frame::Nothing,
        1 => Frame::Ask,
        2 => Frame::Reply(tag, value),
        3 => Frame::Put(tag, value),
        _ => Frame::Ack,
    }
}

#[tactic(auto, unfolding(crate::specs::Layout::frame_number))]
fn frame_number(frame: Frame) -> u32
    ensures { result ≡ frame_number frame }
{
    match frame {
        Frame::Nothing => 0,
        Frame::Ask => 1,
        Frame::Reply(_, _) => 2,
        Frame::Put(_, _) => 3,
        Frame::Ack => 4,
    }
}

// The tag and the value that a reply or a put carries; zeros of any other frame.
#[tactic(auto, unfolding(crate::specs::Layout::frame_tag, crate::specs::Layout::frame_value))]
fn carried(frame: Frame) -> (Tag, u32)
    ensures tag { result.0 ≡ frame_tag frame }
    ensures value { result.1 ≡ frame_value frame }
{
    match frame {
        Frame::Reply(tag, value) | Frame::Put(tag, value) => (tag, value),
        _ => (Tag::ZERO, 0),
    }
}
