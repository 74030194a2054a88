// Listings of a key's subkeys: one checked, written, or written and then checked, by the key record at a position, and the answer written out.
use super::{buffers, lines};
use cell_key_node::KeyNode;
use console::say;
use replay_case::Case;
use sub_key_listing::{WriteRefusal, Written};

fn checked(image: &[u8], key: KeyNode, budget: u32, listing: &[u8]) {
    match sub_key_listing::check_listing(image, key, budget, listing) {
        Ok(counts) => {
            say!(" ok");
            lines::counted(counts);
        }
        Err(refusal) => lines::walk_refused(refusal),
    }
}

// A refusal to write, whole: as one of the walk, with the bytes of a listing in the place of its places.
fn write_refused(refusal: WriteRefusal) {
    say!(
        " refused {} {} {} {} {} {}",
        refusal.reason.number(),
        refusal.position,
        refusal.lists,
        refusal.bytes,
        refusal.entries,
        refusal.dropped,
    );
}

fn written(
    image: &[u8],
    key: KeyNode,
    budget: u32,
    out: &mut [u8],
) -> Result<Written, WriteRefusal> {
    buffers::prefill_known(out);
    let answer = sub_key_listing::write_listing(image, key, budget, out);
    match answer {
        Ok(whole) => say!(
            " ok {} {} {} {} {}",
            whole.bytes,
            whole.kept,
            whole.lists,
            whole.entries,
            whole.dropped,
        ),
        Err(refusal) => write_refused(refusal),
    }
    buffers::told(out);
    answer
}

// Just the bytes that were written are checked, with the same record and budget.
fn written_and_checked(image: &[u8], key: KeyNode, budget: u32, out: &mut [u8]) {
    if let Ok(whole) = written(image, key, budget, out) {
        say!(" checked");
        checked(
            image,
            key,
            budget,
            words::part(out, 0, whole.bytes as usize),
        );
    }
}

// A listing written with the first bytes of a buffer lent.
fn in_room(tag: u8, case: Case, image: &[u8], key: KeyNode, room: &mut [u8]) {
    let n = case.e as usize;
    if room.len() < n {
        say!(" bad room");
        return;
    }
    if tag == 42 {
        written_and_checked(image, key, case.d, &mut room[..n]);
    } else {
        let _ = written(image, key, case.d, &mut room[..n]);
    }
}

fn with_room(tag: u8, case: Case, image: &[u8], key: KeyNode) {
    let mut room = buffers::bytes_space::<524288>();
    in_room(tag, case, image, key, &mut room);
}

// The record is given with a position that is the word b more than where it was read. The listing that is checked is the name.
pub fn answer(tag: u8, case: Case, image: &[u8], name: &[u8]) {
    match cell_key_node::read_key_node(image, case.a as usize, case.c) {
        Ok(key) => {
            let moved = KeyNode {
                position: case.a as usize + case.b as usize,
                ..key
            };
            if tag == 40 {
                checked(image, moved, case.d, name);
            } else {
                with_room(tag, case, image, moved);
            }
        }
        Err(refusal) => lines::refused(refusal),
    }
}
