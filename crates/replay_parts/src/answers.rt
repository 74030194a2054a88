// The project's functions for bins as they arrive, for totals beside the keys, for the strict profile, with the ordinary reading beside that,
// for lists written as the other kind, and for records that know their place, called with what a case gives them, and their answers written out.
use console::say;
use replay_case::Case;
use replay_stream::stream::Answers;
use replay_stream::{conversion, parts, place, totals, walks};

#[derive(Clone, Copy)]
pub struct Program;

impl Answers for Program {
    fn answer(&self, tag: u8, case: Case, image: &[u8], name: &[u8], out: &mut [u32]) {
        match tag {
            26 => parts::row_of_parts(case, image, name),
            27 => parts::one_part(case, image, name),
            28 => totals::row_of_calls(image, name),
            5 | 11 | 14 | 16 | 17 | 20 | 29..=34 => walks::answer(tag, case, image, name, out),
            35..=37 => conversion::answer(tag, case, image, name),
            38 => place::with_record(case, image, name, out),
            39 => place::record_place(case, image),
            _ => say!(" none"),
        }
    }
}
