// Searches of a list for the first record that stands so to y.
ghost use Rattle.std.specs.Prelude.{◌≡◌, All, position};
ghost use Rattle.shift.specs.Faults.{Comparable, share_tag, out_of_order};
ghost use Rattle.shift.specs.Findings.{has_its_tag};

use crate::Record;

// The first of the records that shares its tag with y, both being writes.
pub(crate) fn first_shared(records: &[Record], y: Record) -> Option<usize>
    ensures { result ≡ position (λ x. share_tag x y) records.now }
{
    records.iter().position(|x| x.shares_tag(y))
}

// The first of the records that is a write of y's tag.
pub(crate) fn first_of_its_tag(records: &[Record], y: Record) -> Option<usize>
    ensures { result ≡ position (λ x. has_its_tag x y) records.now }
{
    records.iter().position(|x| x.has_its_tag(y))
}

// The first of the records that is out of order with y.
#[tactic(auto, using(crate::proofs::PositionLaws::position_start, crate::proofs::PositionLaws::position_step, crate::proofs::PositionLaws::position_end))]
pub(crate) fn first_out_of_order(records: &[Record], y: Record) -> Option<usize>
    requires { All Comparable records.now × Comparable y }
    ensures { result ≡ position (λ x. out_of_order x y) records.now }
{
    for (i, x) in records.iter().enumerate() {
        if x.is_out_of_order(y) {
            return Some(i);
        }
    }
    None
}
