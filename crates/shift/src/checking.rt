// The check of a list.
ghost use Rattle.std.specs.Prelude.{◌≡◌, All};
ghost use Rattle.std.specs.List.{list_any, list_all};
ghost use Rattle.shift.specs.Faults.{Comparable, is_sound, share_tag, is_source, no_such_write, out_of_order, rule_of, rule_at, first_fault, checked};

use crate::searching::{first_out_of_order, first_shared};
use crate::{Fault, MAX_RECORDS, Record, Rule};
use decisions::refusals::Refusal;
use parts::MAX_CONSOLES;
use well_formed::tags::{is_tag_ok, is_zero};

impl Record {
    // Whether this record may be put to the rules.
    #[tactic(auto, unfolding(crate::specs::Faults::is_sound))]
    pub fn is_sound(self) -> bool
        ensures { result ≡ is_sound self }
    {
        (self.end == 0 || self.begin < self.end)
            && is_tag_ok(MAX_CONSOLES, self.tag, 0)
            && (!self.kind.is_write() || self.tag.ts > 0)
    }
}

// Whether all of them may.
fn are_sound(records: &[Record]) -> bool
    ensures { result ≡ list_all is_sound records.now }
{
    records.iter().all(|x| x.is_sound())
}

// Whether a record of the list is a write with y's tag and value.
fn has_source(records: &[Record], y: Record) -> bool
    ensures { result ≡ list_any (λ x. is_source x y) records.now }
{
    records.iter().any(|x| x.is_source(y))
}

// Whether y is a read of what no record of the list wrote.
#[tactic(auto, unfolding(crate::specs::Faults::no_such_write))]
fn has_no_such_write(records: &[Record], y: Record) -> bool
    ensures { result ≡ no_such_write records.now y }
{
    !y.kind.is_write() && !is_zero(y.tag, y.value) && !has_source(records, y)
}

// The first rule that puts y at fault, where these are the records before it.
#[tactic(auto, unfolding(crate::specs::Faults::rule_of), using(crate::proofs::PositionLaws::position_any))]
fn rule_of(records: &[Record], before: &[Record], y: Record) -> Option<Rule>
    requires { All Comparable before.now × Comparable y }
    ensures { result ≡ rule_of records.now before.now y }
{
    if first_shared(before, y).is_some() {
        return Some(Rule::SharedTag);
    }
    if has_no_such_write(records, y) {
        return Some(Rule::NoSuchWrite);
    }
    if first_out_of_order(before, y).is_some() {
        return Some(Rule::TagTooLow);
    }
    None
}

// The first rule that puts the record in place i at fault.
#[tactic(auto, unfolding(crate::specs::Faults::rule_at))]
fn rule_at(records: &[Record], i: usize) -> Option<Rule>
    requires { All Comparable records.now }
    ensures { result ≡ rule_at records.now i }
{
    let y = *records.get(i)?;
    rule_of(records, &records[..i], y)
}

// The earliest record at fault.
#[tactic(auto, using(crate::proofs::FaultsLaws::first_none, crate::proofs::FaultsLaws::first_more))]
fn first_fault(records: &[Record]) -> Option<Fault>
    requires { All Comparable records.now }
    ensures { result ≡ first_fault records.now }
{
    for place in 0..records.len() {
        if let Some(rule) = rule_at(records, place) {
            return Some(Fault { place, rule });
        }
    }
    None
}

// The check: the earliest record at fault, with the first rule that puts it there; None: the list is in order. Refused
// with 17 if there are more than 256 records, then with 18 if one of them is not sound.
#[tactic(auto, unfolding(crate::specs::Faults::checked), using(crate::proofs::SoundLaws::sound_all))]
pub fn check(records: &[Record]) -> Result<Option<Fault>, Refusal>
    ensures { result ≡ checked records.now }
{
    Refusal::TooManyRecords.unless(records.len() <= MAX_RECORDS)?;
    Refusal::UnsoundRecord.unless(are_sound(records))?;
    Ok(first_fault(records))
}
