// Writing a line into a lent output by a pen, which holds the output and its running place. All else there stays as it
// was. A call has seen that there is room, but for put_line, which others call: it sees to that itself. How much room
// differs from call to call, so that it is no fact of the pen.
ghost use Rattle.std.specs.Prelude.{◌∷◌, ◌≡◌, ◌+◌, ◌*◌, ◌<◌, ◌≤◌, length};
ghost use Rattle.std.proofs.lemmas.List.Edits.{sets};
ghost use Rattle.csv_lines.specs.Pens.{HasRoom, Wrote};
ghost use Rattle.csv_lines.specs.Writing.{decimal, field_text, fields_text, ended, line_text, number_bytes, field_bytes, line_bytes};

use crate::{LINE_BYTES, Output};
use itoa::Buffer;

#[derive(Drop)]
struct Pen<'a> {
    out: &'a mut [u8],
    at: usize,
}

impl Pen<'_> {
    // The bytes as they are.
    #[tactic(auto, using(crate::proofs::SetsLaws::sets_part))]
    fn put(&mut self, bytes: &[u8])
        requires { HasRoom self.old (length bytes.now) }
        ensures { Wrote self.old self.new bytes.now }
    {
        let end = self.at + bytes.len();
        self.out[self.at..end].copy_from_slice(bytes);
        self.at = end;
    }

    // The decimal digits of n.
    #[tactic(auto, using(crate::proofs::WritingLaws::decimal_is))]
    fn put_number(&mut self, n: u64)
        requires { HasRoom self.old (length (decimal n)) }
        ensures { Wrote self.old self.new (decimal n) }
    {
        let mut digits = Buffer::new();
        self.put(digits.format(n).as_bytes());
    }

    // A comma and the number n, where there is room for the longest.
    #[tactic(auto, using(crate::proofs::WritingLaws::put_field_laws))]
    fn put_field(&mut self, n: u32)
        requires { HasRoom self.old field_bytes }
        ensures { Wrote self.old self.new (field_text n) }
    {
        self.put(b",");
        self.put_number(u64::from(n));
    }

    // Each of the numbers after a comma, where there is room for the longest.
    #[tactic(auto, using(crate::proofs::WritingLaws::put_fields_laws))]
    fn put_fields(&mut self, fields: &[u32])
        requires { HasRoom self.old (length fields.now * field_bytes) }
        ensures wrote { Wrote self.old self.new (fields_text fields.now) }
        ensures short { self.new.at ≤ self.old.at + length fields.now * field_bytes }
    {
        for n in fields {
            self.put_field(*n);
        }
    }

    // A line of a number and fields, with its LF, where there is room for the longest.
    #[tactic(auto, using(crate::proofs::WritingLaws::number_short))]
    fn put_numbers(&mut self, number: u64, fields: &[u32])
        requires { HasRoom self.old (number_bytes + length fields.now * field_bytes + 1) }
        ensures wrote { Wrote self.old self.new (ended (number ∷ fields.now)) }
        ensures short { self.new.at ≤ self.old.at + (number_bytes + length fields.now * field_bytes + 1) }
    {
        self.put_number(number);
        self.put_fields(fields);
        self.put(b"\n");
    }
}

// An output line where there is room for LINE_BYTES. Elsewhere nothing is written, and what is answered is left open. It is
// public: the output and the place stay two parameters.
#[tactic(auto, unfolding(crate::specs::Writing::line_text))]
pub fn put_line(out: &mut [u8], at: usize, line: Output) -> usize
    ensures with_room { at + line_bytes ≤ length out.old → (result ≤ at + line_bytes) × (result ≡ at + length (line_text line)) × (out.new ≡ sets out.old at (line_text line)) }
    ensures without_room { length out.old < at + line_bytes → out.new ≡ out.old }
{
    if out.len().saturating_sub(at) < LINE_BYTES {
        return at;
    }
    let mut pen = Pen { out, at };
    pen.put_numbers(line.number, &line.fields);
    pen.at
}
