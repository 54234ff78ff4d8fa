// The fields of a line, each as that part of the caller's own line, quotes left off.
// Each function hands back a part of the bytes that it is lent, and promises where that part begins; std's `split` and
// `nth` promise the bytes of a part alone.
ghost use Rattle.std.specs.Prelude.{◌≡◌, ◌+◌, ◌-◌, ◌==◌, length, position, take};
ghost use Rattle.csv_lines.specs.Reading.{comma_byte, index_of, from_field, unquoted, quote_bytes, field_of, field_start, IsPart};

// The place of the first comma.
fn first_comma(s: &[u8]) -> Option<usize>
    ensures { result ≡ position (λ x. x == comma_byte) s.now }
{
    s.iter().position(|x| *x == b',')
}

// What stands from field k on; nothing where there is no such field. The loop moves a place and not the part itself,
// since an invariant does not see the address behind a reference.
#[tactic(auto, using(crate::proofs::ReadingLaws::from_field_laws))]
fn from_field(line: &[u8], k: usize) -> &[u8]
    ensures { IsPart line.entry result (from_field line.now k) (length line.now - length (from_field line.now k)) }
{
    let mut start = 0;
    for _ in 0..k {
        match first_comma(&line[start..]) {
            Some(i) => start += i + 1,
            None => return &line[line.len()..],
        }
    }
    &line[start..]
}

// What stands before the first comma; all there is where there is none.
#[tactic(auto, using(crate::proofs::ReadingLaws::before_comma_laws))]
fn before_comma(s: &[u8]) -> &[u8]
    ensures { IsPart s.entry result (take (index_of comma_byte s.now) s.now) 0 }
{
    match first_comma(s) {
        Some(i) => &s[..i],
        None => s,
    }
}

// The text without its quotes.
#[tactic(auto, using(crate::proofs::ReadingLaws::unquoted_laws))]
fn unquoted(s: &[u8]) -> &[u8]
    ensures { IsPart s.entry result (unquoted s.now) (quote_bytes s.now) }
{
    match s {
        [b'"', inner @ .., b'"'] => inner,
        _ => s,
    }
}

// Field k of the line, counted from 0, quotes left off. It is that part of the caller's own line: the promise gives its
// bytes and its address. A field that the line does not have is the empty part at the line's end.
#[tactic(auto, unfolding(crate::specs::Reading::field_of, crate::specs::Reading::field_start))]
pub fn field(line: &[u8], k: usize) -> &[u8]
    ensures { (result.now ≡ field_of line.now k)
        × (result.ref_ptr.0 ≡ line.entry.ref_ptr.0)
        × (result.ref_ptr.1 ≡ line.entry.ref_ptr.1 + field_start line.now k) }
{
    unquoted(before_comma(from_field(line, k)))
}
