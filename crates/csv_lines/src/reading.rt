// A line read as three numbers.
ghost use Rattle.std.specs.Prelude.{◌≡◌};
ghost use Rattle.std.specs.Option.{ok_or};
ghost use Rattle.csv_lines.specs.declared.BadLine.TheVariants.{NotThree};
ghost use Rattle.csv_lines.specs.Reading.{comma_byte, count_of, field_of, num_of, three_of, line_of};

use crate::BadLine;
use crate::fields::field;
use crate::numbers::number;

// The most bytes of a line that Paper 1's program reads; the line's end is no part of it.
pub const MAX_LINE: usize = 64;

// How many of the bytes are b.
#[tactic(auto, using(crate::proofs::ReadingLaws::count_is))]
pub fn count_of(b: u8, s: &[u8]) -> usize
    ensures { result ≡ count_of b s.now }
{
    s.iter().filter(|x| **x == b).count()
}

// The numbers of the first three fields, if each is one.
fn three(line: &[u8]) -> Option<(u32, u32, u32)>
    ensures { ok_or result NotThree ≡ three_of (num_of (field_of line.now 0)) (num_of (field_of line.now 1)) (num_of (field_of line.now 2)) }
{
    let x = number(field(line, 0))?;
    let y = number(field(line, 1))?;
    let z = number(field(line, 2))?;
    Some((x, y, z))
}

// The three numbers of the line. A line over 64 bytes is TooLong whatever it holds; any other that is not three numbers
// joined by commas is NotThree.
#[tactic(auto, using(crate::proofs::ReadingLaws::read_line_laws))]
pub fn read_line(line: &[u8]) -> Result<(u32, u32, u32), BadLine>
    ensures { result ≡ line_of line.now }
{
    if line.len() > MAX_LINE {
        return Err(BadLine::TooLong);
    }
    if count_of(b',', line) != 2 {
        return Err(BadLine::NotThree);
    }
    three(line).ok_or(BadLine::NotThree)
}
