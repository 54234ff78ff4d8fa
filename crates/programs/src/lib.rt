// What the programs share: how one says what it cannot do.
#![tactic(auto)]

ghost use Rattle.std.specs.Prelude.{◌≡◌, ◌++◌, List, ℕ, codes, IfOk, string_bytes};

use std::alloc::AllocError;
use std::io;

// An error's text without the number that ends it, as in 'Is a directory (os error 21)'.
fn without_number(text: &str) -> &str {
    text.split_once(" (os error ").map_or(text, |(why, _)| why)
}

// The line that says what the program cannot do, and why.
pub fn complaint<R: Alloc>(
    rt: &R,
    program: &str,
    what: &str,
    error: &io::Error,
) -> Result<String<R::A>, AllocError>
    ensures { IfOk result (λ line. (why : List ℕ) × (string_bytes line ≡ program.now ++ (codes ": the " ++ (what.now ++ (codes ": " ++ why))))) }
{
    let text = format!(in rt.alloc(); "{error}")?;
    let why = without_number(text.as_str());
    format!(in rt.alloc(); "{program}: the {what}: {why}")
}
