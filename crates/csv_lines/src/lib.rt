// Comma-separated lines (document 01, 'Lines that programs read and write'): the lines of an input, a line's fields, a
// field as a number, a line as three numbers, and a line that is written.
#![tactic(auto)]

pub mod fields;
pub mod numbers;
pub mod reading;
pub mod splitting;
pub mod writing;

// Why a line is not three numbers, for Paper 1's program.
#[derive(Clone, Copy, Debug, PartialEq, Eq)]
pub enum BadLine {
    TooLong,
    NotThree,
}

// The fields of an output line after its number: refusal or 0, outcome, ts, console, value, life.
pub const OUTPUT_SIZE: usize = 6;

// Paper 1: 'Each output line has line number, refusal or 0, outcome, ts, console, value'; Paper 7: 'and the program's
// output gains the tag's life as a seventh field'.
#[derive(Clone, Copy)]
pub struct Output {
    pub number: u64,
    pub fields: [u32; OUTPUT_SIZE],
}

// The most digits of a number of 64 bits.
pub const NUMBER_BYTES: usize = 20;

// The most bytes of a field: a comma and 10 digits of a number of 32 bits.
pub const FIELD_BYTES: usize = 11;

// The most bytes of a written line: its number, its fields and its LF.
pub const LINE_BYTES: usize = NUMBER_BYTES + OUTPUT_SIZE * FIELD_BYTES + 1;
