// A part of a board that stands in N words, and the words of many such parts, one after the other.
ghost use Rattle.std.specs.Prelude.{ℕ, ◌+◌, ◌*◌, ◌^◌, ◌<◌, ◌≤◌, Bool, List, ◌≡◌, length, drop};
ghost use Rattle.std.specs.Simd.{first_chunks};
ghost use Rattle.layout.specs.Layout.{board_words};

use crate::BOARD_WORDS;

// The last number of a mark, that is of a bool.
pub(crate) const LAST_MARK: u32 = 1;

pub(crate) trait InWords<const N: usize>: Copy {
    // What the type says of a part, and reading back rests on.
    ghost fits: { Self → Type 0 };

    ghost from: { List ℕ → Self };

    ghost stands: { List ℕ → Bool };

    ghost fields: { Self → List ℕ };

    // The part in its words. Any number is read as something.
    fn from_words(words: &[u32; N]) -> Self
        ensures { result ≡ from words.now };

    // Whether some part is written as these words.
    // By an Option from from_words a board would be left half read: parts are read in place (docs/MEASURED.md).
    fn stand(words: &[u32; N]) -> bool
        ensures { result ≡ stands words.now };

    fn to_words(self) -> [u32; N]
        ensures value { result ≡ fields self }
        ensures typed { fits self };

    // Reading back rests on more (PartLaws in proofs/Rows.antt), which proofs/PartsBack.antt has of each kind.
    ghost wide: { (x : Self) → length (fields x) ≡ N };
}

// The words of each of K parts, from a board's word at on.
pub(crate) fn words_of_each<const N: usize, const K: usize>(
    w: &[u32; BOARD_WORDS],
    at: usize,
) -> &[[u32; N]; K]
    requires some { (0 < N) × (N < 2 ^ 32) }
    requires enough { at + K * N ≤ board_words }
    ensures { result.now ≡ first_chunks N K (drop at w.now) }
{
    w[at..].as_chunks::<N>().0.first_chunk::<K>().unwrap()
}
