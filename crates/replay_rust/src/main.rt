// Replays a stream of cases (compare/README.md): a line for each, of what the project's functions answer, with no more than the
// Rust tells: `error` for a refusal, `empty` for one that the Rust answers so. The stored cases have the Rust's own answers.
#![tactic(auto)]

mod answers;

use answers::Program;
use replay_stream::stream;

fn main() {
    stream::replay(&Program);
}
