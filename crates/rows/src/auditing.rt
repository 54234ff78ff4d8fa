// What an input comes to.
ghost use Rattle.std.specs.Prelude.{◌≡◌, ◌≤◌, count_by, IfOk};
ghost use Rattle.csv_lines.specs.Splitting.{lines_of};
ghost use Rattle.shift.specs.Faults.{max_records};
ghost use Rattle.shift.specs.Findings.{found_in};
ghost use Rattle.rows.specs.Audit.{rows_from, listed, numbered, is_write, why_unsound, first_unsound, report, audit, audit_start, status};

use crate::reading::row_of;
use crate::{Fault, NoRow, Numbered, Report, Rows, Unsound, WhyUnsound};
use csv_lines::reading::count_of;
use csv_lines::splitting::first_line;
use shift::rows::check_rows;
use shift::{MAX_RECORDS, Row};

// The rows of the input, up to the first line that is none, or the one that is one too many.
#[tactic(auto, using(crate::proofs::RowsLaws::read_rows_laws))]
fn read_rows(input: &[u8]) -> Result<Rows, Report>
    ensures rows { listed result ≡ rows_from 0 (lines_of input.now) }
    ensures few { IfOk result (λ x. x.count ≤ max_records) }
{
    let mut rows = [Row::NONE; MAX_RECORDS];
    let mut rest = input;
    for count in 0..MAX_RECORDS {
        let Some((line, after)) = first_line(rest) else {
            return Ok(Rows { rows, count });
        };
        match row_of(line) {
            Err(why) => {
                let number = count + 1;
                return Err(Report::NotARow(NoRow { number, why }));
            }
            Ok(row) => rows[count] = row,
        }
        rest = after;
    }
    match first_line(rest) {
        None => Ok(Rows {
            rows,
            count: MAX_RECORDS,
        }),
        Some(_) => Err(Report::TooMany),
    }
}

// The row in place i with its number.
fn numbered(rows: &[Row], i: usize) -> Numbered
    ensures { result ≡ numbered rows.now i }
{
    match rows.get(i) {
        Some(row) => Numbered {
            number: i + 1,
            row: *row,
        },
        None => Numbered {
            number: 0,
            row: Row::NONE,
        },
    }
}

// Why the record of this row, which is not sound, is not.
fn why_unsound(row: Row) -> WhyUnsound
    ensures { result ≡ why_unsound row }
{
    if row.end != 0 && row.end <= row.begin {
        WhyUnsound::End
    } else if row.write != 0 && row.ts == 0 {
        WhyUnsound::WriteOfNoTs
    } else {
        WhyUnsound::Tag
    }
}

// The first row whose record is not sound.
fn first_unsound(rows: &[Row]) -> Option<usize>
    ensures { result ≡ first_unsound rows.now }
{
    rows.iter().position(|row| !row.record().is_sound())
}

// The rows that are of writes.
fn writes(rows: &[Row]) -> usize
    ensures { result ≡ count_by is_write rows.now }
{
    rows.iter().filter(|row| row.write != 0).count()
}

// What the rows come to.
#[tactic(auto, using(crate::proofs::RowsLaws::report_laws))]
fn report(rows: &[Row]) -> Report
    ensures { result ≡ report rows.now (found_in rows.now) }
{
    match check_rows(rows) {
        Err(_) => match first_unsound(rows) {
            None => Report::TooMany,
            Some(i) => {
                let this = numbered(rows, i);
                Report::NotSound(Unsound {
                    this,
                    why: why_unsound(this.row),
                })
            }
        },
        Ok(None) => {
            let writes = writes(rows);
            Report::InOrder(rows.len() - writes, writes)
        }
        Ok(Some(finding)) => {
            let other = match finding.other {
                None => None,
                Some(i) => Some(numbered(rows, i)),
            };
            Report::AtFault(Fault {
                this: numbered(rows, finding.fault.place),
                rule: finding.fault.rule,
                other,
            })
        }
    }
}

// What the input comes to.
pub fn audit(input: &[u8]) -> Report
    ensures { result ≡ audit input.now }
{
    match read_rows(input) {
        Err(report) => report,
        Ok(read) => report(&read.rows[..read.count]),
    }
}

// What an input comes to that goes on after these bytes, more than are held.
pub fn audit_start(bytes: &[u8]) -> Report
    ensures { result ≡ audit_start bytes.now }
{
    if count_of(b'\n', bytes) > MAX_RECORDS {
        Report::TooMany
    } else {
        Report::TooLong
    }
}

impl Report {
    // The status with which the program ends.
    pub fn status(self) -> u8
        ensures { result ≡ status self }
    {
        match self {
            Report::InOrder(_, _) => 0,
            Report::AtFault(_) => 1,
            _ => 2,
        }
    }
}
