// Replays the part of the stored cases (compare/README.md) that is about listings of a key's subkeys, checked and written: a whole line for
// each, of what the project's functions answer. The stored cases have the answers of document 02 as compare/paper.py reads it. replay_paper
// answers these cases too; here they have a stored output of their own.
#![tactic(auto)]

mod answers;

use answers::Program;
use replay_stream::stream;

fn main() {
    stream::replay(&Program);
}
