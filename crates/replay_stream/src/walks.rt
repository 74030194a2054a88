// One list, one leaf list's subkeys and the walk, by the ordinary reading and by the strict profile: each called with what a case gives it,
// and its answer written out.
ghost use Rattle.std.specs.Prelude.{◌≡◌, ◌+◌, ◌*◌};

use super::buffers;
use super::lines::{counted, refused, walk_refused};
use cell_key_node::KeyNode;
use console::say;
use replay_case::Case;
use sub_key_list::SubKeyList;
use sub_key_walk::{Counts, LeafRead, WalkRefusal};
use words::Refusal;

// A number of 64 bits, of two of a case's words.
pub fn joined(low: u32, high: u32) -> usize
    ensures { result ≡ low + 4294967296 * high }
{
    low as usize + 4294967296 * (high as usize)
}

fn list_line(list: Result<SubKeyList, Refusal>) {
    match list {
        Ok(SubKeyList::Leaf(leaf)) => {
            say!(
                " ok {} {} {}",
                leaf.kind.word(),
                leaf.entry_size,
                leaf.count
            );
        }
        Ok(SubKeyList::Index(index)) => say!(" ok 26994 4 {}", index.count),
        Err(refusal) => refused(refusal),
    }
}

fn counts_line(answer: Result<Counts, WalkRefusal>) {
    match answer {
        Ok(counts) => {
            say!(" ok");
            counted(counts);
        }
        Err(refusal) => walk_refused(refusal),
    }
}

fn walk_line(answer: Result<Counts, WalkRefusal>, out: &[u32]) {
    counts_line(answer);
    match answer {
        Ok(counts) => buffers::written(out, counts.kept as usize),
        Err(_) => buffers::untouched(out, 0),
    }
}

fn leaf_line(answer: Result<LeafRead, WalkRefusal>, out: &[u32]) {
    match answer {
        Ok(read) => {
            say!(" ok {} {} {}", read.kept, read.entries, read.dropped);
            buffers::written(out, read.kept as usize);
        }
        Err(refusal) => {
            walk_refused(refusal);
            buffers::untouched(out, 0);
        }
    }
}

// The strict cases have the minor version in a word that the ordinary ones do not use, or in the name.
fn list(tag: u8, case: Case, image: &[u8]) {
    let position = case.a as usize;
    list_line(if tag == 11 {
        sub_key_list::read_list(image, position)
    } else {
        sub_key_list::strict_list(image, position, case.b, case.c == 1)
    });
}

fn walk(tag: u8, case: Case, image: &[u8], name: &[u8], out: &mut [u32]) {
    buffers::prefill_known(out);
    let answer = if tag == 5 {
        sub_key_walk::sub_keys(image, case.c, case.a, case.b, case.d, out)
    } else {
        let minor = words::u32_at(name, 0);
        sub_key_walk::strict_sub_keys(image, case.c, case.a, case.b, case.d, minor, out)
    };
    walk_line(answer, out);
}

// From a key record, which is held to its place.
pub fn walk_of(strict: bool, image: &[u8], key: KeyNode, budget: u32, minor: u32, out: &mut [u32]) {
    buffers::prefill_known(out);
    let answer = if strict {
        key_in_place::strict_sub_keys_of(image, key, budget, minor, out)
    } else {
        key_in_place::sub_keys_of(image, key, budget, out)
    };
    walk_line(answer, out);
}

// The position has 64 bits, the words a and b.
fn leaf(tag: u8, case: Case, image: &[u8], out: &mut [u32]) {
    let position = joined(case.a, case.b);
    buffers::prefill_known(out);
    let answer = if tag == 16 {
        sub_key_walk::leaf_sub_keys(image, case.c, position, out)
    } else {
        sub_key_walk::strict_leaf_sub_keys(image, case.c, position, case.d, out)
    };
    leaf_line(answer, out);
}

fn counts(tag: u8, case: Case, image: &[u8]) {
    counts_line(if tag == 17 {
        sub_key_walk::sub_key_counts(image, case.c, case.a, case.b, case.d)
    } else {
        sub_key_walk::strict_sub_key_counts(image, case.c, case.a, case.b, case.d, case.e)
    });
}

pub fn counts_of(strict: bool, image: &[u8], key: KeyNode, budget: u32, minor: u32) {
    counts_line(if strict {
        key_in_place::strict_sub_key_counts_of(image, key, budget, minor)
    } else {
        key_in_place::sub_key_counts_of(image, key, budget)
    });
}

fn by_record(tag: u8, case: Case, image: &[u8], out: &mut [u32]) {
    match cell_key_node::read_key_node(image, case.a as usize, case.c) {
        Ok(key) => match tag {
            14 | 31 => walk_of(tag == 31, image, key, case.d, case.b, out),
            _ => counts_of(tag == 34, image, key, case.d, case.b),
        },
        Err(refusal) => refused(refusal),
    }
}

// A case that has a buffer, with its first places lent.
fn with_room(tag: u8, case: Case, image: &[u8], name: &[u8], out: &mut [u32]) {
    let n = case.e as usize;
    if out.len() < n {
        say!(" bad room");
        return;
    }
    match tag {
        5 | 30 => walk(tag, case, image, name, &mut out[..n]),
        16 | 32 => leaf(tag, case, image, &mut out[..n]),
        _ => by_record(tag, case, image, &mut out[..n]),
    }
}

pub fn answer(tag: u8, case: Case, image: &[u8], name: &[u8], out: &mut [u32]) {
    match tag {
        11 | 29 => list(tag, case, image),
        17 | 33 => counts(tag, case, image),
        20 | 34 => by_record(tag, case, image, out),
        _ => with_room(tag, case, image, name, out),
    }
}
