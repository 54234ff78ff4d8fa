// Reads a schedule from standard input and answers each of its lines on standard output. All that a line comes to is
// done by the crate schedule; this program only reads and writes. If it cannot, it says why in one line on standard
// error and ends with status 1; if nobody reads its output any more, it ends so without a word.
#![tactic(auto)]

ghost use Rattle.std.specs.Prelude.{◌≤◌, length};

use csv_lines::splitting::HELD_BYTES;
use programs::complaint;
use schedule::Position;
use schedule::chunks::{CHUNK_BYTES, OUT_BYTES, run_chunk, run_end, start};
use std::io;
use std::io::{ErrorKind, Read, Write};
use std::process::ExitCode;

// Why a run ends before its input does.
#[derive(Drop)]
enum Failure {
    Read(io::Error),
    Write(io::Error),
}

// The rack at work: its input and output, where the run over the schedule stands, and the memory that it lends the run.
#[derive(Drop)]
struct Rack<'a, R, W> {
    input: &'a mut R,
    output: &'a mut W,
    position: Position,
    line: [u8; HELD_BYTES],
    out: [u8; OUT_BYTES],
}

impl<R: Read, W: Write> Rack<'_, R, W> {
    // Writes the first n bytes of out. The caller has seen that there are so many.
    fn write_first(&mut self, n: usize) -> Result<(), Failure>
        requires { n ≤ length self.old.out }
    {
        self.output
            .write_all(&self.out[..n])
            .map_err(Failure::Write)
    }

    // Reads once, and answers what came. Says whether the input goes on.
    fn read_some(&mut self) -> Result<bool, Failure> {
        let mut chunk = [0u8; CHUNK_BYTES];
        let n = self.input.read(&mut chunk).map_err(Failure::Read)?;
        if n == 0 {
            return Ok(false);
        }
        self.position = run_chunk(self.position, &mut self.line, &chunk, n, &mut self.out);
        self.write_first(self.position.wrote)?;
        Ok(true)
    }

    // Answers all but a last line that no LF ends. A proved loop has to end, and nothing says that an input does: so this
    // one counts to a number that no run reaches.
    fn read_all(&mut self) -> Result<(), Failure> {
        for _ in 0..u64::MAX {
            if !self.read_some()? {
                break;
            }
        }
        Ok(())
    }

    // Answers the last line, if no LF ends it.
    fn finish(&mut self) -> Result<(), Failure> {
        let n = run_end(self.position, &self.line, &mut self.out);
        self.write_first(n)
    }
}

// Answers the whole input.
fn run<R: Read, W: Write>(input: &mut R, output: &mut W) -> Result<(), Failure> {
    let mut rack = Rack {
        input,
        output,
        position: start(),
        line: [0; HELD_BYTES],
        out: [0; OUT_BYTES],
    };
    rack.read_all()?;
    rack.finish()
}

// Says on standard error, in one line, what cannot be done and why.
fn say(rt: &(impl Eprint + Alloc), what: &str, error: io::Error) -> io::Result<()> {
    match complaint(rt, "rack", what, &error) {
        Ok(line) => eprintln!(rt; "{line}"),
        Err(_) => eprintln!(rt; "rack: the {what}: {error}"),
    }
}

// Says what failed, unless it is that nobody reads the output any more.
fn complain(rt: &(impl Eprint + Alloc), failure: Failure) -> io::Result<()> {
    match failure {
        Failure::Read(e) => say(rt, "input cannot be read", e),
        Failure::Write(e) if e.kind() == ErrorKind::BrokenPipe => Ok(()),
        Failure::Write(e) => say(rt, "output cannot be written", e),
    }
}

fn main(rt: HostRuntime) -> ExitCode {
    match run(&mut rt.stdin(), &mut rt.stdout()) {
        Ok(()) => ExitCode::SUCCESS,
        Err(failure) => {
            // Nothing can be said where standard error cannot be written.
            let _ = complain(&rt, failure);
            ExitCode::FAILURE
        }
    }
}
