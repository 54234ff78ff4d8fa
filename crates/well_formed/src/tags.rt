// The clauses on tags and their values, which come apart, as nodes, consoles and frames have them (parts).
ghost use Rattle.std.specs.Prelude.{◌≡◌};
ghost use Rattle.well_formed.specs.Clauses.{is_zero, tag_ok};

use parts::{MAX_LIFE, MAX_TS, Tag};

// Whether this is tag (0, 0), in life 0, with value 0.
#[tactic(auto, unfolding(crate::specs::Clauses::is_zero))]
pub fn is_zero(t: Tag, v: u32) -> bool
    ensures { result ≡ is_zero t v }
{
    t == Tag::ZERO && v == 0
}

// On a board of m consoles.
#[tactic(auto, unfolding(crate::specs::Clauses::tag_ok))]
pub fn is_tag_ok(m: u32, t: Tag, v: u32) -> bool
    ensures { result ≡ tag_ok m t v }
{
    t.ts <= MAX_TS && u32::from(t.console) < m && t.life <= MAX_LIFE && (t.ts != 0 || is_zero(t, v))
}
