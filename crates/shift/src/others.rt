// Which other record the one at fault is against.
ghost use Rattle.std.specs.Prelude.{◌≡◌, ◌≤◌, All, length};
ghost use Rattle.shift.specs.Faults.{Comparable, checked};
ghost use Rattle.shift.specs.Findings.{other_of, finding, told};

use crate::checking::check;
use crate::searching::{first_of_its_tag, first_out_of_order, first_shared};
use crate::{Fault, Finding, Record, Rule};
use decisions::refusals::Refusal;

// The other record of the record y in place i, which this rule puts at fault.
#[tactic(auto, unfolding(crate::specs::Findings::other_of))]
fn other_of(records: &[Record], i: usize, y: Record, rule: Rule) -> Option<usize>
    requires { All Comparable records.now × (i ≤ length records.now) × Comparable y }
    ensures { result ≡ other_of records.now i y rule }
{
    match rule {
        Rule::SharedTag => first_shared(&records[..i], y),
        Rule::NoSuchWrite => first_of_its_tag(records, y),
        Rule::TagTooLow => first_out_of_order(&records[..i], y),
    }
}

// The fault with its other record.
#[tactic(auto, unfolding(crate::specs::Findings::finding))]
fn finding(records: &[Record], fault: Fault) -> Finding
    requires { All Comparable records.now }
    ensures { result ≡ finding records.now fault }
{
    let other = match records.get(fault.place) {
        Some(y) => other_of(records, fault.place, *y, fault.rule),
        None => None,
    };
    Finding { fault, other }
}

// The check, with the other record of what it finds.
#[tactic(auto, using(crate::proofs::FindingsLaws::checked_comparable))]
pub fn check_and_tell(records: &[Record]) -> Result<Option<Finding>, Refusal>
    ensures { result ≡ told records.now (checked records.now) }
{
    match check(records)? {
        Some(fault) => Ok(Some(finding(records, fault))),
        None => Ok(None),
    }
}
