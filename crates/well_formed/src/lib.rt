// Question 1, part by part: each function tests the clauses of document 01's 'A board is well formed if' that speak of
// its part, in the order of the definition that its contract names. Each takes any value of its part.
#![tactic(auto)]

pub mod cells;
pub mod consoles;
mod every;
pub mod nodes;
pub mod ranges;
pub mod tags;
