// The check of a shift's record, for callers in C.
ghost use Rattle.std.specs.Prelude.{◌≡◌};
ghost use Rattle.shift.specs.Findings.{found_in};
ghost use Rattle.hatukeno.specs.Shifts.{verdict_of};

use crate::Verdict;
use shift::Row;
use shift::rows::check_rows;

// The place of no record.
const NO_RECORD: usize = usize::MAX;

// The check of the lent records: they are only read.
#[unsafe(no_mangle)]
pub extern "C" fn shift_check(rows: &[Row]) -> Verdict
    ensures { result ≡ verdict_of (found_in rows.now) }
{
    match check_rows(rows) {
        Err(refusal) => Verdict {
            refusal: u32::from(refusal),
            rule: 0,
            place: 0,
            other: NO_RECORD,
        },
        Ok(None) => Verdict {
            refusal: 0,
            rule: 0,
            place: 0,
            other: NO_RECORD,
        },
        Ok(Some(finding)) => Verdict {
            refusal: 0,
            rule: u32::from(finding.fault.rule),
            place: finding.fault.place,
            other: finding.other.unwrap_or(NO_RECORD),
        },
    }
}
