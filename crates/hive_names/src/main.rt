// Hives that Samba's registry library wrote, in data/: the subkeys of the root key, a line for each. On it stand the key's position
// and name, the hash of the name, in an `lh` list the hash that Samba stored, and two lookups in upper case: `VALUE1`, which Samba
// wrote as `Value1`, and `VALUE2`.
#![tactic(auto)]

use cell_key_node::KeyNode;
use console::input::read_full;
use console::{say, say_bytes};
use std::fs::File;
use std::rt::Files;
use words::Refusal;

// Where the bins begin, and the word at 4 of an `lh` list.
const BASE: u32 = 4096;

const LH: u16 = 0x686C;

fn text(bytes: &[u8]) {
    say!(" \"");
    say_bytes(bytes);
    say!("\"");
}

fn refused(f: Refusal) {
    say!(" refused {} {}", f.reason.number(), f.position);
}

fn hash(flags: u16, name: &[u8]) {
    say!(" hash");
    match name_hash::name_hash(flags, name) {
        Ok(hash) => say!(" {hash}"),
        Err(f) => refused(f),
    }
}

// The hash that entry `i` of an `lh` list has.
fn stored(list: &[u8], i: u32) {
    if words::u16_at(list, 4) == LH {
        say!(" stored {}", words::u32_at(list, 12 + 8 * i as usize));
    }
}

fn lookup(image: &[u8], key: KeyNode, name: &str) {
    say!(", {name}");
    match key_in_place::find_value_of(image, key, name.as_bytes()) {
        Ok(found) => {
            say!(" {}", found.position);
            text(cell_key_value::value_name(image, found.position));
        }
        Err(f) => refused(f),
    }
}

fn sub_key(image: &[u8], list: &[u8], i: u32, offset: u32) {
    let position = offset as usize;
    say!(" {position}");
    match cell_key_node::read_key_node(image, position, BASE) {
        Ok(key) => {
            let name = cell_key_node::key_name(image, position);
            text(name);
            hash(key.key_node_flag_bits, name);
            stored(list, i);
            lookup(image, key, "VALUE1");
            lookup(image, key, "VALUE2");
        }
        Err(f) => refused(f),
    }
    say!("\n");
}

fn sub_keys(image: &[u8], key: KeyNode) {
    let mut out = [0u32; 64];
    let at = key.sub_keys_list_offset_relative as usize + BASE as usize;
    let list = words::from(image, at);
    match key_in_place::sub_keys_of(image, key, 1024, &mut out) {
        Ok(counts) => {
            say!(
                " {} {} {} {}\n",
                counts.kept,
                counts.lists,
                counts.entries,
                counts.dropped,
            );
            for (i, offset) in (0..counts.kept).zip(&out) {
                sub_key(image, list, i, *offset);
            }
        }
        Err(f) => say!(" refused {} {}\n", f.reason.number(), f.position),
    }
}

// The root key stands where the word at 36 says.
fn root(image: &[u8]) {
    let at = words::u32_at(image, 36) as usize;
    let position = at + BASE as usize;
    match cell_key_node::read_key_node(image, position, BASE) {
        Ok(key) => {
            text(cell_key_node::key_name(image, position));
            sub_keys(image, key);
        }
        Err(f) => {
            refused(f);
            say!("\n");
        }
    }
}

fn hive<R: Files>(rt: &R, path: &str) {
    say!("{path}");
    match File::open(rt, path) {
        Err(_) => say!(" is not there\n"),
        Ok(mut file) => {
            let mut buffer = io::large_buffer();
            let n = read_full(&mut file, &mut buffer);
            root(&buffer[..n]);
        }
    }
}

fn main(rt: HostRuntime) {
    hive(&rt, "samba-1.1-3k-2v.hive");
    hive(&rt, "samba-1.3-40k-3v.hive");
    hive(&rt, "samba-1.5-3k-2v.hive");
}
