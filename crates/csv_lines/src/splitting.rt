// The lines of an input: of one that is there as a whole, the first and what stands after it; of one that comes in parts,
// the line so far, which is held in lent memory until its end is there.
// That memory and how much of it is held are no struct: the functions are public and take any memory and any number, of
// which a struct's invariant would refuse some.
ghost use Rattle.std.specs.Prelude.{[], ◌∷◌, ◌++◌, ◌≡◌, ◌==◌, ◌≤◌, min, length, position, take, MatchOption};
ghost use Rattle.csv_lines.specs.Reading.{lf_byte};
ghost use Rattle.csv_lines.specs.Splitting.{chop, lines_of};

use crate::reading::MAX_LINE;

// How many bytes of a line are held: those of a line, its CR and one more, so that a line that is too long is seen to
// be.
pub const HELD_BYTES: usize = MAX_LINE + 2;

// The lesser of two numbers: std's `min`, beside which it stays since it is public.
pub fn least(a: usize, b: usize) -> usize
    ensures { result ≡ min a b }
{
    a.min(b)
}

// Puts the bytes behind those that are held, as far as there is room, and answers how many are held then. No more are
// held than the line has bytes, whatever number is given.
pub fn hold(line: &mut [u8], held: usize, bytes: &[u8]) -> usize
    ensures { (result ≤ length line.new) × (take result line.new ≡ take (length line.old) (take held line.old ++ bytes.now)) }
{
    let held = held.min(line.len());
    let n = (line.len() - held).min(bytes.len());
    line[held..held + n].copy_from_slice(&bytes[..n]);
    held + n
}

// How many of the held bytes are the line, once its LF is there: a CR before that is part of the line's end. No more
// are held than the line has bytes, whatever number is given.
#[tactic(auto, using(crate::proofs::SplittingLaws::chopped_laws))]
pub fn chopped(line: &[u8], held: usize) -> usize
    ensures { (result ≤ held) × (take result line.now ≡ chop (take held line.now)) }
{
    let held = held.min(line.len());
    match &line[..held] {
        [.., b'\r'] => held - 1,
        _ => held,
    }
}

// The place of the first LF.
fn first_lf(s: &[u8]) -> Option<usize>
    ensures { result ≡ position (λ x. x == lf_byte) s.now }
{
    s.iter().position(|x| *x == b'\n')
}

// The first line of the input, and what stands after it. None: there is no line.
#[tactic(auto, using(crate::proofs::LinesLaws::first_line_laws))]
pub fn first_line(input: &[u8]) -> Option<(&[u8], &[u8])>
    ensures { MatchOption result (input.now ≡ []) (λ part. lines_of input.now ≡ part.0.now ∷ lines_of part.1.now) }
{
    if input.is_empty() {
        return None;
    }
    match first_lf(input) {
        Some(i) => Some((&input[..chopped(input, i)], &input[i + 1..])),
        None => Some((input, &[])),
    }
}
