// A shift's record as lines: a row for each operation, and what the check of them all comes to, in words (document 02,
// Papers 10 and 13).
#![tactic(auto)]

use shift::{MAX_RECORDS, Row, Rule};

// Why a line is no row of the newer edition: how many fields it has; which field, from 1, is no number; a kind or a life
// that no record has.
#[derive(Clone, Copy)]
pub enum BadRow {
    Fields(usize),
    NotANumber(usize),
    Kind,
    Life,
}

// A row with the number of its line, from 1.
#[derive(Clone, Copy)]
pub struct Numbered {
    pub number: usize,
    pub row: Row,
}

// A row at fault, by which rule, and the other row that it is against, if there is one.
#[derive(Clone, Copy)]
pub struct Fault {
    pub this: Numbered,
    pub rule: Rule,
    pub other: Option<Numbered>,
}

// Why a record is not put to the rules (refusal 18).
#[derive(Clone, Copy)]
pub enum WhyUnsound {
    End,
    WriteOfNoTs,
    Tag,
}

// The row of a record that is not sound.
#[derive(Clone, Copy)]
pub struct Unsound {
    pub this: Numbered,
    pub why: WhyUnsound,
}

// The number of a line that is no row, from 1.
#[derive(Clone, Copy)]
pub struct NoRow {
    pub number: usize,
    pub why: BadRow,
}

// What an input comes to: how many reads and writes are in order; which row is at fault; or why it cannot be checked: a
// line that is no row, more rows than are checked, a record that is not sound, more bytes than are held.
#[derive(Clone, Copy)]
pub enum Report {
    InOrder(usize, usize),
    AtFault(Fault),
    NotARow(NoRow),
    TooMany,
    NotSound(Unsound),
    TooLong,
}

// Rows at the start of an array.
#[derive(Clone, Copy)]
pub struct Rows {
    pub rows: [Row; MAX_RECORDS],
    pub count: usize,
}

pub mod auditing;
pub mod reading;
mod words;
