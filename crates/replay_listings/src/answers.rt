// The project's functions for listings of a key's subkeys, called with what a case gives them, and their answers written out.
use console::say;
use replay_case::Case;
use replay_stream::listings;
use replay_stream::stream::Answers;

#[derive(Clone, Copy)]
pub struct Program;

impl Answers for Program {
    fn answer(&self, tag: u8, case: Case, image: &[u8], name: &[u8], _out: &mut [u32]) {
        match tag {
            40..=42 => listings::answer(tag, case, image, name),
            _ => say!(" none"),
        }
    }
}
