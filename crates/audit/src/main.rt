// Checks the record of a shift: rows on standard input, and the answer in one line. If they are in order it is on standard
// output, with status 0; if one is at fault too, with status 1; if they cannot be checked it is on standard error, with
// status 2. All that the rows come to is done by the crate rows; this program only reads and writes.
#![tactic(auto)]

ghost use Rattle.std.specs.Prelude.{◌≤◌, IfOk};
ghost use Rattle.audit.specs.Held.{max_bytes};

use programs::complaint;
use rows::Report;
use rows::auditing::{audit, audit_start};
use std::io;
use std::io::{ErrorKind, Read};
use std::process::ExitCode;

// The most bytes of an input, and one: 256 rows without needless zeros have fewer than half as many.
const MAX_BYTES: usize = 65536;

// Reads into the buffer until the input ends or the buffer is full, and says how many bytes it has read. A proved loop
// has to end: one read of no byte ends this one, and there are no more of others than there are bytes.
fn read_all(input: &mut impl Read, buffer: &mut [u8; MAX_BYTES]) -> io::Result<usize>
    ensures { IfOk result (λ n. n ≤ max_bytes) }
{
    let mut held = 0;
    for _ in 0..MAX_BYTES {
        let n = input.read(&mut buffer[held..])?;
        if n == 0 {
            break;
        }
        held += n;
    }
    Ok(held)
}

// What the input comes to.
fn report(input: &mut impl Read) -> io::Result<Report> {
    let mut buffer = [0; MAX_BYTES];
    let n = read_all(input, &mut buffer)?;
    if n == MAX_BYTES {
        Ok(audit_start(&buffer))
    } else {
        Ok(audit(&buffer[..n]))
    }
}

// Says what the input came to, where it belongs.
fn answer(rt: &(impl Print + Eprint), report: Report) -> io::Result<()> {
    if report.status() == 2 {
        eprintln!(rt; "audit: {report}")
    } else {
        println!(rt; "{report}")
    }
}

// Says on standard error, in one line, what cannot be done and why.
fn say(rt: &(impl Eprint + Alloc), what: &str, error: io::Error) -> io::Result<()> {
    match complaint(rt, "audit", what, &error) {
        Ok(line) => eprintln!(rt; "{line}"),
        Err(_) => eprintln!(rt; "audit: the {what}: {error}"),
    }
}

// The status with which the program ends; 2 if the input cannot be read, or the answer not written.
fn run(rt: &(impl Print + Eprint + Alloc), input: &mut impl Read) -> u8 {
    match report(input) {
        Err(e) => {
            // Nothing can be said where standard error cannot be written.
            let _ = say(rt, "input cannot be read", e);
            2
        }
        Ok(report) => match answer(rt, report) {
            Ok(()) => report.status(),
            Err(e) if e.kind() == ErrorKind::BrokenPipe => 2,
            Err(e) => {
                let _ = say(rt, "output cannot be written", e);
                2
            }
        },
    }
}

fn main(rt: HostRuntime) -> ExitCode {
    ExitCode::from(run(&rt, &mut rt.stdin()))
}
