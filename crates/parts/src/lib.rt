// The parts of a board: what document 01 defines without speaking of a whole board.
// The types and limits are here; each module below holds the functions on one kind of part.
#![tactic(auto)]

// The most nodes and consoles of a board and the greatest timestamp (document 01, 'The board').
// Callers read them off the board's own type.
pub const MAX_NODES: u32 = 5;

pub const MAX_CONSOLES: u32 = 8;

pub const MAX_TS: u32 = 4000000000;

// The last life of a console (document 02, Paper 7).
pub const MAX_LIFE: u16 = 1000;

// The lengths of a board's lists: its nodes, its consoles, and a cell for each pair. Casts: a constant can call no From.
pub const NODES: usize = MAX_NODES as usize;

pub const CONSOLES: usize = MAX_CONSOLES as usize;

pub const CELLS: usize = (MAX_CONSOLES * MAX_NODES) as usize;

// Document 01's console number and node number: separate quantities, each checked once against m or n.
#[derive(Clone, Copy)]
pub struct ConsoleId(pub u32);

#[derive(Clone, Copy)]
pub struct NodeId(pub u32);

// Document 01's tag: a timestamp, the number of the console that chose it, and in which of its lives (document 02,
// Paper 7). It has eight bytes.
#[derive(Clone, Copy, Debug, PartialEq, Eq)]
pub struct Tag {
    pub ts: u32,
    pub console: u16,
    pub life: u16,
}

// Document 01's frame, with 'nothing' for an empty cell. Ask and put go to the node, reply and ack to the console.
// No Option in a cell, and no struct of tag and value: document 01 names this form, a tag and a value side by side.
#[derive(Clone, Copy)]
pub enum Frame {
    Nothing,
    Ask,
    Reply(Tag, u32),
    Put(Tag, u32),
    Ack,
}

// Document 01's cell: the link between one console and one node, which keeps only the newest frame.
#[derive(Clone, Copy)]
pub struct Cell {
    pub frame: Frame,
}

// Document 01's node: a replica of the register.
#[derive(Clone, Copy)]
pub struct Node {
    pub up: bool,
    pub tag: Tag,
    pub value: u32,
}

// Whether an operation is a read or a write.
#[derive(Clone, Copy)]
pub enum Kind {
    Read,
    Write,
}

// What a console is doing. Asking is the query phase and telling the propagation phase (write-back) of its
// operation; document 01 calls both 'waiting'. An idle or down console has no operation, and so no kind.
#[derive(Clone, Copy)]
pub enum State {
    Idle,
    Asking(Kind),
    Telling(Kind),
    Down,
}

// Document 01's console: a client of the register. 'answered' has one bit for each node that has answered in this
// phase; 'alike' is document 02's mark, all alike so far: while it is on, every answer of this asking has carried the
// same tag; 'best' and 'value' are the greatest tag heard or chosen, and its value; 'life' is how often the console has
// been restarted.
#[derive(Clone, Copy)]
pub struct Console {
    pub state: State,
    pub wanted: u32,
    pub answered: u8,
    pub alike: bool,
    pub best: Tag,
    pub value: u32,
    pub life: u16,
}

// The release that a board is made under and keeps (document 02, Paper 4). From release 2 on a read may finish early.
#[derive(Clone, Copy)]
pub enum Release {
    One,
    Two,
}

// What a board is made with: its release, and document 01's n, the nodes, and m, the consoles.
#[derive(Clone, Copy)]
pub struct Setup {
    pub release: Release,
    pub n: u32,
    pub m: u32,
}

// Document 01's outcome. Only a finished operation's carries a tag and a value.
#[derive(Clone, Copy)]
pub enum Outcome {
    Refused,
    Done,
    Handed,
    Heard,
    Turned,
    Finished(Tag, u32),
    Discarded,
}

pub mod answered;
pub mod cases;
pub mod cells;
pub mod consoles;
pub mod nodes;
pub mod order;
pub mod outcomes;
pub mod sizes;
