// Questions 2 and 3, and that n and m are in range.
ghost use Rattle.std.specs.Prelude.{◌≡◌};
ghost use Rattle.well_formed.specs.Clauses.{nodes_allowed, consoles_allowed, setup_ok};

use parts::{MAX_CONSOLES, MAX_NODES, Setup};

// Question 2.
#[tactic(auto, unfolding(crate::specs::Clauses::nodes_allowed))]
pub fn is_node_count(n: u32) -> bool
    ensures { result ≡ nodes_allowed n }
{
    (1..=MAX_NODES).contains(&n)
}

// Question 3.
#[tactic(auto, unfolding(crate::specs::Clauses::consoles_allowed))]
pub fn is_console_count(m: u32) -> bool
    ensures { result ≡ consoles_allowed m }
{
    (1..=MAX_CONSOLES).contains(&m)
}

#[tactic(auto, unfolding(crate::specs::Clauses::setup_ok))]
pub fn is_setup_ok(setup: Setup) -> bool
    ensures { result ≡ setup_ok setup }
{
    is_node_count(setup.n) && is_console_count(setup.m)
}
