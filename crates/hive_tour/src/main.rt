// README.md's row of calls for an integrator, on the hives of data/: a short function for each step, to be copied. Every answer is
// taken apart by `match`, and the first refusal ends a step with its number and position.
#![tactic(auto)]

use cell_key_node::KeyNode;
use cell_key_value::KeyValue;
use console::input::read_full;
use console::{say, say_bytes};
use std::fs::File;
use std::rt::Files;
use words::Reason;

// Where the bins begin, the most lists that the walk reads, and the most subkeys that are visited.
const BASE: u32 = 4096;

const BUDGET: u32 = 1024;

const FEW: u32 = 3;

// A record by its position and its name.
fn named(position: usize, name: &[u8]) {
    say!(" {position} ");
    say_bytes(name);
}

fn refused(reason: Reason, position: usize) {
    say!(" refused {} {position}\n", reason.number());
}

fn bytes(row: &[u8]) {
    for byte in row {
        say!(" {byte:02x}");
    }
    say!("\n");
}

// Step 8: the data of a value, into a lent buffer. A buffer that is too small is refused by 9, with the places needed.
fn data(image: &[u8], minor: u32, value: KeyValue) {
    let mut out = [0u8; 64];
    say!("  data");
    match value_data::value_data_of(image, BASE, minor, value, &mut out) {
        Err(f) => refused(f.reason, f.position),
        Ok(n) => bytes(words::part(&out, 0, n as usize)),
    }
}

// Step 7: one value by its name.
fn lookup(image: &[u8], minor: u32, key: KeyNode, name: &[u8]) {
    say!("  lookup");
    match key_in_place::find_value_of(image, key, name) {
        Err(f) => refused(f.reason, f.position),
        Ok(found) => {
            let position = found.position;
            named(position, cell_key_value::value_name(image, position));
            say!("\n");
            data(image, minor, found.value);
        }
    }
}

// Step 6: a value record and its name. A value list gives offsets as they are stored, without the base.
fn value(image: &[u8], offset: u32) {
    let position = offset as usize + BASE as usize;
    say!("  value");
    match cell_key_value::read_key_value(image, position) {
        Err(f) => refused(f.reason, f.position),
        Ok(v) => {
            named(position, cell_key_value::value_name(image, position));
            say!(" {} {}\n", v.data_type_raw, v.data_size_raw);
        }
    }
}

// Step 5: the value list of a key, into a lent buffer.
fn values(image: &[u8], key: KeyNode) {
    let mut out = [0u32; 16];
    match key_in_place::value_list_of(image, key, &mut out) {
        Err(f) => refused(f.reason, f.position),
        Ok(n) => {
            for offset in out.iter().take(n as usize) {
                value(image, *offset);
            }
        }
    }
}

// A subkey: its record and name, its values, and one of them by name, with its data. A walk gives positions, with the base in them.
fn sub_key(image: &[u8], minor: u32, offset: u32) {
    let position = offset as usize;
    say!(" key");
    match cell_key_node::read_key_node(image, position, BASE) {
        Err(f) => refused(f.reason, f.position),
        Ok(key) => {
            named(position, cell_key_node::key_name(image, position));
            say!("\n");
            values(image, key);
            lookup(image, minor, key, b"VALUE1");
        }
    }
}

// Step 4: the subkeys of a key, into a lent buffer, and how many entries of its lists are left out; the first few are visited.
fn sub_keys(image: &[u8], minor: u32, key: KeyNode) {
    let mut out = [0u32; 64];
    match key_in_place::sub_keys_of(image, key, BUDGET, &mut out) {
        Err(f) => refused(f.reason, f.position),
        Ok(c) => {
            say!(" {} {}\n", c.kept, c.dropped);
            for offset in out.iter().take(c.kept.min(FEW) as usize) {
                sub_key(image, minor, *offset);
            }
        }
    }
}

// Step 10: a key into a table of totals, with the number of its subkeys. A call gives the table back, and the next call takes it; what
// is asked again and again is then the stored total, and nothing is walked for it. Another image has another table.
fn totals(image: &[u8], key: KeyNode) {
    say!(" totals");
    let changed = key_totals::add(key_totals::empty(), image, key, BUDGET);
    match changed.answer {
        Err(f) => refused(f.reason, f.position),
        Ok(n) => say!(" {n} {}\n", key_totals::total_of(changed.table)),
    }
}

// Step 11: the same walk read strictly, with the minor version that the base block tells: a copy whose lists are not as its version
// permits, or not each in an allocated cell of its own, is refused. What is accepted is what step 4 gave.
fn strictly(image: &[u8], minor: u32, key: KeyNode) {
    say!(" strictly");
    match key_in_place::strict_sub_key_counts_of(image, key, BUDGET, minor) {
        Err(f) => refused(f.reason, f.position),
        Ok(c) => say!(" {} {}\n", c.kept, c.dropped),
    }
}

// What came back, beside the list that is stored: kind, count and entries, which stand behind the size word.
fn compared(stored: &[u8], back: &[u8], size: usize) {
    let same = words::part(stored, 4, size) == words::part(back, 4, size);
    let word = if same { "same" } else { "other" };
    say!(" {} {word}\n", back.len());
}

fn back_as_lh(image: &[u8], stored: &[u8], cell: &[u8]) {
    let mut out = [0u8; 1024];
    let size = 4 + 8 * words::u16_at(stored, 6) as usize;
    say!(" {}", cell.len());
    match list_conversion::write_lh(cell, 0, image, BASE, &mut out) {
        Err(f) => refused(f.reason, f.position),
        Ok(n) => compared(stored, words::part(&out, 0, n as usize), size),
    }
}

fn back_as_li(stored: &[u8], cell: &[u8]) {
    let mut out = [0u8; 1024];
    let size = 4 + 4 * words::u16_at(stored, 6) as usize;
    say!(" {}", cell.len());
    match list_conversion::write_li(cell, 0, &mut out) {
        Err(f) => refused(f.reason, f.position),
        Ok(n) => compared(stored, words::part(&out, 0, n as usize), size),
    }
}

// An `li` list as `lh`: each hash is that of the name of the key that the entry names.
fn converted_li(image: &[u8], position: usize) {
    let mut out = [0u8; 1024];
    match list_conversion::write_lh(image, position, image, BASE, &mut out) {
        Err(f) => refused(f.reason, f.position),
        Ok(n) => {
            back_as_li(
                words::from(image, position),
                words::part(&out, 0, n as usize),
            );
        }
    }
}

// Step 12: a key's list written as the other kind into a lent buffer, an `lh` list as `li` or an `li` list as `lh`, and that cell written back.
// A list of any other kind is refused by 4. A buffer that is too small is refused by 9, with the places needed.
fn converted(image: &[u8], key: KeyNode) {
    let mut out = [0u8; 1024];
    let position = key.sub_keys_list_offset_relative as usize + BASE as usize;
    say!(" converted");
    match list_conversion::write_li(image, position, &mut out) {
        Err(f) => {
            if f.reason == Reason::BadSign {
                converted_li(image, position);
            } else {
                refused(f.reason, f.position);
            }
        }
        Ok(n) => {
            back_as_lh(
                image,
                words::from(image, position),
                words::part(&out, 0, n as usize),
            );
        }
    }
}

// Step 3: the root key, at the root offset plus the base. The offset is signed, and a negative one is refused by 2.
fn root(image: &[u8], minor: u32, offset: i32) {
    say!(" root");
    if offset < 0 {
        refused(Reason::Outside, 0);
        return;
    }
    let position = words::above_zero(offset) as usize + BASE as usize;
    match cell_key_node::read_key_node(image, position, BASE) {
        Err(f) => refused(f.reason, f.position),
        Ok(key) => {
            named(position, cell_key_node::key_name(image, position));
            sub_keys(image, minor, key);
            totals(image, key);
            strictly(image, minor, key);
            converted(image, key);
        }
    }
}

// Step 9: the keys that were deleted, by the positions of their records, into a lent buffer. The bins are checked by this too.
fn deleted(image: &[u8], size: u32) {
    let mut out = [0u64; 16];
    say!(" deleted");
    match deleted_keys::deleted_keys(image, BASE, size, &mut out) {
        Err(f) => refused(f.reason, f.position),
        Ok(n) => say!(" {n}\n"),
    }
}

// Step 2: bins and cells, before anything in them is believed.
fn bins(image: &[u8], minor: u32, size: u32, root_offset: i32) {
    say!(" bins");
    match hive_bin::check_bins(image, BASE, size) {
        Err(f) => refused(f.reason, f.position),
        Ok(t) => {
            say!(" {}\n", t.bins);
            root(image, minor, root_offset);
            deleted(image, size);
        }
    }
}

// Step 1: the base block, which tells the minor version, the bins' size and where the root key is.
fn tour(image: &[u8]) {
    match base_block::read_base_block(image) {
        Err(f) => refused(f.reason, f.position),
        Ok(b) => bins(
            image,
            b.minor_version,
            b.hive_bins_data_size,
            b.root_cell_offset,
        ),
    }
}

fn hive<R: Files>(rt: &R, path: &str) {
    say!("{path}\n");
    match File::open(rt, path) {
        Err(_) => say!(" is not there\n"),
        Ok(mut file) => {
            let mut buffer = io::large_buffer();
            let n = read_full(&mut file, &mut buffer);
            tour(&buffer[..n]);
        }
    }
}

fn main(rt: HostRuntime) {
    hive(&rt, "samba-1.1-3k-2v.hive");
    hive(&rt, "samba-1.3-40k-3v.hive");
    hive(&rt, "samba-1.5-3k-2v.hive");
    hive(&rt, "samba-1.1-3k-2v-repaired.hive");
    hive(&rt, "samba-1.3-40k-3v-repaired.hive");
    hive(&rt, "samba-1.5-3k-2v-repaired.hive");
}
