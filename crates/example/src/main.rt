// The README's worked example, P2 of document 01, by the proved steps. Each answer is a line: its outcome's number, its
// refusal, and its tag's timestamp, console number, value and life.
#![tactic(auto)]

use board::{Answer, Board, ConsoleId, NodeId};
use std::io;

fn main(rt: HostRuntime) -> io::Result<()> {
    let fresh = next(&rt, Board::fresh(3, 2))?;
    let begun = next(&rt, fresh.begin_write(ConsoleId(1), 7))?;
    let asked = twice(&rt, begun, NodeId(0))?;
    let turned = twice(&rt, asked, NodeId(2))?;
    let told = twice(&rt, turned, NodeId(0))?;
    let finished = twice(&rt, told, NodeId(2))?;
    // P10: the cell is empty by now.
    next(&rt, finished.deliver(ConsoleId(1), NodeId(0)))?;
    Ok(())
}

// Delivers to node k, and then its answer to console 1.
fn twice(rt: &impl Print, b: Board, k: NodeId) -> io::Result<Board> {
    let handed = next(rt, b.deliver(ConsoleId(1), k))?;
    next(rt, handed.deliver(ConsoleId(1), k))
}

// Writes an answer down and hands on its board.
fn next(rt: &impl Print, a: Answer) -> io::Result<Board> {
    let tag = a.outcome.tag();
    println!(rt;
        "{},{},{},{},{},{}",
        a.outcome.number(),
        a.refusal_number(),
        tag.ts,
        tag.console,
        a.outcome.value(),
        tag.life
    )?;
    Ok(a.board)
}
