// A test of each number below a number.
ghost use Rattle.std.specs.Prelude.{◌≡◌, ◌<◌, ℕ, Bool};
ghost use Rattle.parts.specs.Finite.{every};

// Whether the test holds of each number below n, where it is that of a definition. By `(0..n).all(test)` the proof did not
// close: std asks that the test may be called at every turn, and it may be only below n.
pub(crate) fn every<F: Fn(u32) -> bool>(n: u32, test: F) -> bool
    requires { (k : ℕ) → k < n → F.pre test k }
    ensures { (p : ℕ → Bool) → ((k : ℕ) (yes : Bool) → k < n → F.post test k yes → yes ≡ p k) → result ≡ every n p }
{
    for k in 0..n {
        if !test(k) {
            return false;
        }
    }
    true
}
