// What the listings have in common: a hive that is read, the lines of its base block, its bins, a position and a refusal, and what is told
// on standard error.
#![tactic(auto)]

pub mod input;
pub mod lines;
pub mod stop;
