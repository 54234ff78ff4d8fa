// What an input comes to, in words.
ghost use Rattle.std.specs.Prelude.{◌≡◌};
ghost use Rattle.rows.specs.Words.{ends_first};

use crate::{BadRow, Fault, NoRow, Numbered, Report, Unsound, WhyUnsound};
use shift::{Row, Rule};
use std::fmt;

// A row as it is written: its numbers without needless zeros.
#[derive(Clone, Copy)]
struct Written(Row);

impl fmt::Display for Written {
    ghost use Rattle.std.specs.Prelude.{Some};
    ghost use Rattle.rows.specs.Words.{row_text};

    ghost output = { λ x. Some (row_text x.0) };

    fn fmt<W: fmt::Write>(&self, f: &mut fmt::Formatter<W>) -> fmt::Result {
        let r = self.0;
        write!(
            f,
            "{},{},{},{},{},{},{},{}",
            r.console, r.write, r.begin, r.end, r.ts, r.tag_console, r.life, r.value
        )
    }
}

impl fmt::Display for Numbered {
    ghost use Rattle.std.specs.Prelude.{Some};
    ghost use Rattle.rows.specs.Words.{numbered_text};

    ghost output = { λ x. Some (numbered_text x) };

    fn fmt<W: fmt::Write>(&self, f: &mut fmt::Formatter<W>) -> fmt::Result {
        let n = self.number;
        let row = Written(self.row);
        write!(f, "row {n} ({row})")
    }
}

impl fmt::Display for BadRow {
    ghost use Rattle.std.specs.Prelude.{Some};
    ghost use Rattle.rows.specs.Words.{bad_row_text};

    ghost output = { λ x. Some (bad_row_text x) };

    fn fmt<W: fmt::Write>(&self, f: &mut fmt::Formatter<W>) -> fmt::Result {
        match self {
            BadRow::Fields(n) => write!(f, "fields: {n}, and a row has 8"),
            BadRow::NotANumber(k) => write!(f, "field {k} is not a number of 32 bits"),
            BadRow::Kind => f.write_str("its kind is neither 0 nor 1"),
            BadRow::Life => f.write_str("its life is above 1000"),
        }
    }
}

impl fmt::Display for WhyUnsound {
    ghost use Rattle.std.specs.Prelude.{Some};
    ghost use Rattle.rows.specs.Words.{why_text};

    ghost output = { λ x. Some (why_text x) };

    fn fmt<W: fmt::Write>(&self, f: &mut fmt::Formatter<W>) -> fmt::Result {
        match self {
            WhyUnsound::End => f.write_str("its end is not after its begin"),
            WhyUnsound::WriteOfNoTs => f.write_str("it is a write with ts 0"),
            WhyUnsound::Tag => f.write_str("its tag is that of no board of 8 consoles"),
        }
    }
}

impl fmt::Display for Unsound {
    ghost use Rattle.std.specs.Prelude.{Some};
    ghost use Rattle.rows.specs.Words.{unsound_text};

    ghost output = { λ x. Some (unsound_text x) };

    fn fmt<W: fmt::Write>(&self, f: &mut fmt::Formatter<W>) -> fmt::Result {
        let this = self.this;
        let why = self.why;
        write!(f, "{this} cannot be checked (18): {why}")
    }
}

impl fmt::Display for NoRow {
    ghost use Rattle.std.specs.Prelude.{Some};
    ghost use Rattle.rows.specs.Words.{no_row_text};

    ghost output = { λ x. Some (no_row_text x) };

    fn fmt<W: fmt::Write>(&self, f: &mut fmt::Formatter<W>) -> fmt::Result {
        let number = self.number;
        let why = self.why;
        write!(f, "line {number} is not a row: {why}")
    }
}

// Whether row x ended before row y began.
fn ends_first(x: Row, y: Row) -> bool
    ensures { result ≡ ends_first x y }
{
    x.end != 0 && x.end < y.begin
}

impl fmt::Display for Fault {
    ghost use Rattle.std.specs.Prelude.{Some};
    ghost use Rattle.rows.specs.Words.{fault_text};

    ghost output = { λ x. Some (fault_text x) };

    fn fmt<W: fmt::Write>(&self, f: &mut fmt::Formatter<W>) -> fmt::Result {
        let this = self.this;
        match (self.rule, self.other) {
            (Rule::SharedTag, Some(other)) => {
                write!(
                    f,
                    "{this} is at fault by rule 1: {other} is a write of the same tag"
                )
            }
            (Rule::NoSuchWrite, Some(other)) => {
                write!(
                    f,
                    "{this} is at fault by rule 2: it read another value than {other} wrote"
                )
            }
            (Rule::NoSuchWrite, None) => {
                write!(f, "{this} is at fault by rule 2: no row wrote what it read")
            }
            (Rule::TagTooLow, Some(other)) => {
                if ends_first(this.row, other.row) {
                    write!(
                        f,
                        "{this} is at fault by rule 3: it ended before {other} began, whose tag is too low"
                    )
                } else {
                    write!(
                        f,
                        "{this} is at fault by rule 3: {other} ended before it began, and its tag is too low"
                    )
                }
            }
            (Rule::SharedTag, None) | (Rule::TagTooLow, None) => write!(f, "{this} is at fault"),
        }
    }
}

impl fmt::Display for Report {
    ghost use Rattle.std.specs.Prelude.{Some};
    ghost use Rattle.rows.specs.Words.{report_text};

    ghost output = { λ x. Some (report_text x) };

    fn fmt<W: fmt::Write>(&self, f: &mut fmt::Formatter<W>) -> fmt::Result {
        match self {
            Report::InOrder(reads, writes) => write!(
                f,
                "in order; reads: {reads}, writes: {writes}"
            ),
            Report::AtFault(fault) => write!(f, "{fault}"),
            Report::NotARow(x) => write!(f, "{x}"),
            Report::TooMany => f.write_str("there are more than 256 rows (17)"),
            Report::NotSound(x) => write!(f, "{x}"),
            Report::TooLong => f.write_str("the input has 65536 bytes or more"),
        }
    }
}
