// Whether an outcome is that of an accepted step, what it says in document 01's numbers, and a comparison as a number.
ghost use Rattle.std.specs.Prelude.{◌≡◌};
ghost use Rattle.parts.specs.Tags.{is_higher, is_same};
ghost use Rattle.parts.specs.Outcomes.{accepted, outcome_number, outcome_tag, outcome_value, compared_number};

use crate::{Outcome, Tag};
use std::cmp::Ordering;

impl Outcome {
    // Whether the step was accepted: not refused.
    pub fn is_accepted(self) -> bool
        ensures { result ≡ accepted self }
    {
        !matches!(self, Outcome::Refused)
    }

    // The number that an outcome is written as. A method and no From: a finished one's tag and value are not in it.
    pub fn number(self) -> u32
        ensures { result ≡ outcome_number self }
    {
        match self {
            Outcome::Refused => 0,
            Outcome::Done => 1,
            Outcome::Handed => 2,
            Outcome::Heard => 3,
            Outcome::Turned => 4,
            Outcome::Finished(_, _) => 5,
            Outcome::Discarded => 6,
        }
    }

    // The final tag of a finished operation; (0, 0) with any other outcome. It and the value come apart, as their
    // definitions do.
    pub fn tag(self) -> Tag
        ensures { result ≡ outcome_tag self }
    {
        match self {
            Outcome::Finished(tag, _) => tag,
            _ => Tag::ZERO,
        }
    }

    // The value of a finished operation; 0 with any other outcome.
    pub fn value(self) -> u32
        ensures { result ≡ outcome_value self }
    {
        match self {
            Outcome::Finished(_, value) => value,
            _ => 0,
        }
    }
}

// Whether a reply compared higher, or the same. A step that took no reply in says neither.
pub fn is_higher(compared: Option<Ordering>) -> bool
    ensures { result ≡ is_higher compared }
{
    matches!(compared, Some(Ordering::Greater))
}

pub fn is_same(compared: Option<Ordering>) -> bool
    ensures { result ≡ is_same compared }
{
    matches!(compared, Some(Ordering::Equal))
}

// The number that a comparison is written as: 0 for none, then lower, same and higher. Neither type is of this crate, so
// that it can be no From.
pub fn compared_number(compared: Option<Ordering>) -> u32
    ensures { result ≡ compared_number compared }
{
    match compared {
        None => 0,
        Some(Ordering::Less) => 1,
        Some(Ordering::Equal) => 2,
        Some(Ordering::Greater) => 3,
    }
}
