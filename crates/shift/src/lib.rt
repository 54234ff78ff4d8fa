// A shift's record, and the check of it (document 02, Paper 10): what it finds is the earliest record at fault.
// When a list is in order: specs/InOrder.antt.
#![tactic(auto)]

ghost use Rattle.std.specs.Prelude.{◌≡◌};
ghost use Rattle.shift.specs.Faults.{rule_number};

use parts::{ConsoleId, Kind, Tag};

// One operation of a shift: its console, whether it is a read or a write, where it began and ended (0 while it is
// unfinished), and its tag and value. Any numbers may be handed in.
#[derive(Clone, Copy)]
pub struct Record {
    pub console: ConsoleId,
    pub kind: Kind,
    pub begin: u32,
    pub end: u32,
    pub tag: Tag,
    pub value: u32,
}

// The most records of a list that is checked.
pub const MAX_RECORDS: usize = 256;

// The rules, in the paper's order, with their numbers.
#[derive(Clone, Copy, Debug, PartialEq, Eq)]
pub enum Rule {
    SharedTag = 1,
    NoSuchWrite = 2,
    TagTooLow = 3,
}

impl From<Rule> for u32 {
    ghost from_gives = { λ rule number. number ≡ rule_number rule };

    // The cast is how an enum's own numbers are read.
    fn from(rule: Rule) -> u32 {
        rule as u32
    }
}

// A record at fault: its place in the list, from 0, and the first rule that puts it at fault.
#[derive(Clone, Copy)]
pub struct Fault {
    pub place: usize,
    pub rule: Rule,
}

// A fault with the record that it is against, by its place: of a pair rule the first before it with which it breaks the
// rule, of a read the first write of its tag, which has another value. None: there is no such write.
#[derive(Clone, Copy)]
pub struct Finding {
    pub fault: Fault,
    pub other: Option<usize>,
}

// A record as its numbers, for callers in C and for lines: 'write' is 0 for a read and any other number for a write.
#[repr(C)]
#[derive(Clone, Copy)]
pub struct Row {
    pub console: u32,
    pub write: u32,
    pub begin: u32,
    pub end: u32,
    pub ts: u32,
    pub tag_console: u32,
    pub life: u32,
    pub value: u32,
}

pub mod checking;
pub mod others;
mod pairs;
pub mod rows;
mod searching;
