// A field's text as a number. It is not std's `parse`, which takes a sign too; by `char::to_digit` the proof did not close.
ghost use Rattle.std.specs.Prelude.{◌≡◌};
ghost use Rattle.csv_lines.specs.Reading.{num_of};

// The number that the digits make; None where there is no digit, a byte that is none, or a number beyond 32 bits.
#[tactic(auto, using(crate::proofs::ReadingLaws::number_laws))]
pub fn number(s: &[u8]) -> Option<u32>
    ensures { result ≡ num_of s.now }
{
    if s.is_empty() {
        return None;
    }
    let mut sum: u32 = 0;
    for x in s {
        if !x.is_ascii_digit() {
            return None;
        }
        sum = sum.checked_mul(10)?.checked_add(u32::from(*x - b'0'))?;
    }
    Some(sum)
}
