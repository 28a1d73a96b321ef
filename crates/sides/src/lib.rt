// Sides of rows as slices of formula numbers, strictly rising in a file. Every function takes slices of any contents: what
// needs rising ones to be exact is still never true wrongly.
#![tactic(auto)]

pub mod covering;
pub mod fitting;
pub mod members;
mod merging;
pub mod numbers;
pub mod sequents;
