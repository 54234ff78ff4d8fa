// The check of rows: records as their numbers.
ghost use Rattle.std.specs.Prelude.{◌≡◌, ◌≤◌, length, map, take};
ghost use Rattle.shift.specs.Faults.{max_records};
ghost use Rattle.shift.specs.Findings.{record_of, in_16_bits, kind_of, found_in};

use crate::others::check_and_tell;
use crate::{Finding, MAX_RECORDS, Record, Row};
use decisions::refusals::Refusal;
use parts::{ConsoleId, Kind, Tag};

// The number, or the greatest of 16 bits.
fn in_16_bits(n: u32) -> u16
    ensures { result ≡ in_16_bits n }
{
    u16::try_from(n).unwrap_or(u16::MAX)
}

impl Row {
    // What stands where no row does.
    pub const NONE: Row = Row {
        console: 0,
        write: 0,
        begin: 0,
        end: 0,
        ts: 0,
        tag_console: 0,
        life: 0,
        value: 0,
    };

    fn kind(self) -> Kind
        ensures { result ≡ kind_of self.write }
    {
        if self.write == 0 {
            Kind::Read
        } else {
            Kind::Write
        }
    }

    // The record of these numbers.
    #[tactic(auto, unfolding(crate::specs::Findings::record_of))]
    pub fn record(self) -> Record
        ensures { result ≡ record_of self }
    {
        Record {
            console: ConsoleId(self.console),
            kind: self.kind(),
            begin: self.begin,
            end: self.end,
            tag: Tag {
                ts: self.ts,
                console: in_16_bits(self.tag_console),
                life: in_16_bits(self.life),
            },
            value: self.value,
        }
    }
}

// The records of the rows, at the start of an array. The caller has seen that they fit.
fn records_of(rows: &[Row]) -> [Record; MAX_RECORDS]
    requires { length rows.now ≤ max_records }
    ensures { (length result ≡ max_records) × (take (length rows.now) result ≡ map record_of rows.now) }
{
    let mut records = [Row::NONE.record(); MAX_RECORDS];
    for (i, row) in rows.iter().enumerate() {
        records[i] = row.record();
    }
    records
}

// The check of the records of the rows, with the other record of what it finds.
#[tactic(auto, unfolding(crate::specs::Findings::found_in), using(crate::proofs::FindingsLaws::many_rows))]
pub fn check_rows(rows: &[Row]) -> Result<Option<Finding>, Refusal>
    ensures { result ≡ found_in rows.now }
{
    Refusal::TooManyRecords.unless(rows.len() <= MAX_RECORDS)?;
    let records = records_of(rows);
    check_and_tell(&records[..rows.len()])
}
