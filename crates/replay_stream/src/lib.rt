// What the replaying programs share: the stream of cases (compare/README.md), the form of the lines, a case's buffers, and the answers that
// several programs write out.
#![tactic(auto)]

pub mod buffers;
pub mod conversion;
pub mod lines;
pub mod listings;
pub mod parts;
pub mod place;
pub mod records;
pub mod stream;
pub mod totals;
pub mod values;
pub mod walks;
