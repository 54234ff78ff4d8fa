// A run under way over the bytes of a chunk, in lent memory.
ghost use Rattle.std.specs.Prelude.{[], ◌∷◌, ◌++◌, ◌≡◌, ◌+◌, ◌≤◌, length, take};
ghost use Rattle.csv_lines.specs.Reading.{lf_byte};
ghost use Rattle.csv_lines.specs.Splitting.{held_bytes};
ghost use Rattle.schedule.specs.Chunks.{session_of};
ghost use Rattle.schedule.specs.Running.{HasRoom, NoLf, session_in, Answered, Took};

use crate::Position;
use crate::effects::{answer_to, output_of};
use csv_lines::splitting::{HELD_BYTES, chopped, hold, least};
use csv_lines::writing::put_line;
use memchr::memchr;
use verbs::Checked;

// The board, the number of the line, what is held of it at the start of the lent line, and the lent output with its
// running place. Each buffer stands with its count here, and the methods alone move them.
#[derive(Drop)]
pub(crate) struct Run<'a> {
    pub checked: Checked,
    pub number: u64,
    pub line: &'a mut [u8; HELD_BYTES],
    pub held: usize,
    pub out: &'a mut [u8],
    pub wrote: usize,
}

impl<'a> Run<'a> {
    // A run from this position, that writes from the start of the output on.
    pub(crate) fn new(
        position: Position,
        line: &'a mut [u8; HELD_BYTES],
        out: &'a mut [u8],
    ) -> Run<'a>
        ensures same { (result.line.ghost_name ≡ line.entry.ghost_name) × (result.out.ghost_name ≡ out.entry.ghost_name) }
        ensures session { session_in result ≡ session_of position line.old }
        ensures held { result.held ≡ length (session_in result).held }
        ensures out { (result.wrote ≡ 0) × (result.out.now ≡ out.old) }
    {
        Run {
            checked: Checked::new(position.board),
            number: position.number,
            line,
            held: least(position.held, HELD_BYTES),
            out,
            wrote: 0,
        }
    }

    // Answers the line that the first n bytes of the lent one are, and holds nothing then. The caller has seen that
    // there is room for its output line.
    #[tactic(auto, unfolding(crate::specs::Schedule::effect_of, crate::specs::Schedule::next_number))]
    pub(crate) fn answer(&mut self, n: usize)
        requires { HasRoom self.old 1 × (n ≤ held_bytes) }
        ensures { Answered self.old self.new (take n self.old.line.now) }
    {
        let answer = answer_to(&self.line[..n], &mut self.checked);
        self.wrote = put_line(self.out, self.wrote, output_of(self.number, answer));
        self.number = self.number.saturating_add(1);
        self.held = 0;
    }

    // Holds these bytes too, of which none is an LF, as far as there is room.
    fn hold(&mut self, bytes: &[u8])
        requires { NoLf bytes.now }
        ensures { Took self.old self.new bytes.now }
    {
        let held = self.held;
        self.held = hold(self.line, held, bytes);
    }

    // Answers the line that ends with these bytes and an LF. The caller has seen that there is room for its output line.
    fn end_line(&mut self, bytes: &[u8])
        requires { HasRoom self.old (length bytes.now + 1) × NoLf bytes.now }
        ensures { Took self.old self.new (bytes.now ++ lf_byte ∷ []) }
    {
        self.hold(bytes);
        let n = chopped(self.line, self.held);
        self.answer(n);
    }

    // Takes the bytes, line by line. The caller has seen that the output has room for a line at every byte. It is no `for`
    // over std's `split`: that hands on what stands after the last LF, which is no line yet, as it does a line.
    pub(crate) fn take(&mut self, bytes: &[u8])
        requires { HasRoom self.old (length bytes.now) }
        ensures { Took self.old self.new bytes.now }
    {
        let mut rest = bytes;
        while let Some(i) = memchr(b'\n', rest) {
            let (line, after) = rest.split_at(i);
            self.end_line(line);
            rest = &after[1..];
        }
        self.hold(rest);
    }
}
