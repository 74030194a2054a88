// A subkey list written as the other kind, and there and back: each step called with what a case gives it, and its answer written out.
use super::walks::joined;
use super::{buffers, lines};
use console::say;
use replay_case::Case;
use words::RoomRefusal;

// Which kind a list is written as.
#[derive(Clone, Copy)]
enum As {
    Lh,
    Li,
}

impl As {
    fn other(self) -> As {
        match self {
            As::Lh => As::Li,
            As::Li => As::Lh,
        }
    }
}

// One step: the list at a position written as the other kind, and its line.
fn step(
    kind: As,
    list: &[u8],
    position: usize,
    image: &[u8],
    base: u32,
    out: &mut [u8],
) -> Result<u32, RoomRefusal> {
    buffers::prefill_known(out);
    let answer = match kind {
        As::Lh => list_conversion::write_lh(list, position, image, base, out),
        As::Li => list_conversion::write_li(list, position, out),
    };
    match answer {
        Ok(size) => say!(" ok {size}"),
        Err(refusal) => lines::room_refused(refusal),
    }
    buffers::told(out);
    answer
}

// One step, with the first bytes of a buffer lent.
fn one_step(kind: As, list: &[u8], position: usize, image: &[u8], case: Case, room: &mut [u8]) {
    let n = case.e as usize;
    if room.len() < n {
        say!(" bad room");
        return;
    }
    let _ = step(kind, list, position, image, case.c, &mut room[..n]);
}

// Its buffer, like that of the two steps, is in a frame of its own: else all of them would be in that of `answer`.
#[inline(never)]
fn one_way(kind: As, list: &[u8], position: usize, image: &[u8], case: Case) {
    let mut room = buffers::bytes_space::<524288>();
    one_step(kind, list, position, image, case, &mut room);
}

// Two steps, each with a buffer of its own: the second has as its list just the cell that the first wrote.
fn two_steps(kind: As, position: usize, image: &[u8], case: Case, room: &mut [u8]) {
    let n = case.e as usize;
    if room.len() < n {
        say!(" bad room");
        return;
    }
    if let Ok(size) = step(kind, image, position, image, case.c, &mut room[..n]) {
        say!(" back");
        one_way(
            kind.other(),
            words::part(room, 0, size as usize),
            0,
            image,
            case,
        );
    }
}

#[inline(never)]
fn there_and_back(kind: As, position: usize, image: &[u8], case: Case) {
    let mut room = buffers::bytes_space::<524288>();
    two_steps(kind, position, image, case, &mut room);
}

// For one step the word d tells where the list is, in the name or in the image; for two it tells which kind is written first.
pub fn answer(tag: u8, case: Case, image: &[u8], name: &[u8]) {
    let position = joined(case.a, case.b);
    match tag {
        37 => {
            let kind = if case.d != 1 { As::Lh } else { As::Li };
            there_and_back(kind, position, image, case);
        }
        _ => {
            let kind = if tag == 35 { As::Lh } else { As::Li };
            let list = if case.d == 1 { name } else { image };
            one_way(kind, list, position, image, case);
        }
    }
}
