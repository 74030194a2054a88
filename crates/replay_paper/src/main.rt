// Replays a stream of cases (compare/README.md): a whole line for each, of what the project's functions answer. The stored cases
// have the answers of document 01 as compare/paper.py reads it.
#![tactic(auto)]

mod answers;

use answers::Program;
use replay_stream::stream;

fn main() {
    stream::replay(&Program);
}
