// Key records, value records, value lists, lookups and hashes at their boundaries, a line for each: what is tried, a colon, and
// the answer. Every place of a list's buffer stands behind `|`, and held 7 before.
#![tactic(auto)]

use cell_key_node::KeyNode;
use cell_key_value::{FoundValue, KeyValue};
use console::{say, say_bytes};
use sub_key_walk::{Counts, WalkRefusal};
use words::{Refusal, RoomRefusal};

// "nk" and "vk".
const NK: u16 = 0x6B6E;

const VK: u16 = 0x6B76;

// ---- texts on the line

fn state(allocated: bool) -> &'static str {
    if allocated { "allocated" } else { "free" }
}

fn text(what: &str, bytes: &[u8]) {
    say!("{what} \"");
    say_bytes(bytes);
    say!("\"");
}

fn refused(f: Refusal) {
    say!(" refused {} {}", f.reason.number(), f.position);
}

// ---- bytes put into an image, where it has them

fn put_all(image: &mut [u8], at: usize, bytes: &[u8]) {
    if at < image.len() {
        let n = bytes.len().min(image.len() - at);
        image[at..at + n].copy_from_slice(&bytes[..n]);
    }
}

fn put(image: &mut [u8], at: usize, byte: u8) {
    put_all(image, at, &[byte]);
}

fn put_16(image: &mut [u8], at: usize, n: u16) {
    put_all(image, at, &n.to_le_bytes());
}

fn put_32(image: &mut [u8], at: usize, n: u32) {
    put_all(image, at, &n.to_le_bytes());
}

// A record: its size word, its signature, the length of its name at a place of it, and eight letters after its fixed part.
fn put_record(
    image: &mut [u8],
    at: usize,
    size: u32,
    sign: u16,
    name_at: u16,
    name: u16,
    fixed: u16,
) {
    if at < image.len() {
        put_32(image, at, size);
        put_16(image, at + 4, sign);
        put_16(image, at + name_at as usize, name);
        put_32(image, at + fixed as usize, 0x44434241);
        put_32(image, at + 4 + fixed as usize, 0x48474645);
    }
}

// ---- key records

fn key_answer(image: &[u8], at: usize) {
    match cell_key_node::read_key_node(image, at, 0) {
        Ok(key) => say!(" read {}", state(key.allocated)),
        Err(f) => refused(f),
    }
    text(" name", cell_key_node::key_name(image, at));
    text(" slack", cell_key_node::key_slack(image, at));
    say!("\n");
}

// What is tried: a record at a position of an image of so many bytes, its size word, its signature, the length of its name.
fn tried(what: &str, at: usize, length: usize, size: u32, sign: u16, name: u16) {
    let size = i32::from_le_bytes(size.to_le_bytes());
    say!("{what} {at} of {length}, size {size}, ");
    say_bytes(&sign.to_le_bytes());
    say!(", name {name}:");
}

fn key_case(at: usize, size: u32, sign: u16, name: u16, length: usize) {
    tried("key at", at, length, size, sign, name);
    let mut image = [0u8; 104];
    put_record(&mut image, at, size, sign, 76, name, 80);
    key_answer(words::part(&image, 0, length), at);
}

fn key_line_of_numbers(key: KeyNode) {
    say!(
        " {} {} {} {} {} {} {} {} {} {} {} {} {} {} {} {} {} {} {} {} {}",
        key.size,
        state(key.allocated),
        key.key_node_flag_bits,
        key.last_key_written_time,
        key.access_flag_bits,
        key.parent_key_offset_relative,
        key.number_of_sub_keys,
        key.number_of_volatile_sub_keys,
        key.sub_keys_list_offset_relative,
        key.volatile_sub_keys_list_offset_relative,
        key.number_of_key_values,
        key.key_values_list_offset_relative,
        key.security_key_offset_relative,
        key.class_name_offset_relative,
        key.largest_sub_key_name_size,
        key.largest_sub_key_class_name_size,
        key.largest_value_name_size,
        key.largest_value_data_size,
        key.work_var,
        key.key_name_size,
        key.class_name_size,
    );
}

// The bytes of each number but the signed ones are their own places in the record.
fn key_numbers() {
    say!("key numbers:");
    let image =
        b"\xb0\xff\xff\xffnk\x06\x07\x08\x09\x0a\x0b\x0c\x0d\x0e\x0f\x10\x11\x12\x13\xfe\xff\xff\xff\x18\x19\x1a\x1b\x1c\x1d\x1e\x1f\x20\x21\x22\x23\xfd\xff\xff\xff\x28\x29\x2a\x2b\xfc\xff\xff\xff\x30\x31\x32\x33\x00\x00\x00\x80\x38\x39\x3a\x3b\x3c\x3d\x3e\x3f\x40\x41\x42\x43\x44\x45\x46\x47\x48\x49\x4a\x4b\x00\x00\x4e\x4f";
    match cell_key_node::read_key_node(image, 0, 0) {
        Ok(key) => key_line_of_numbers(key),
        Err(f) => refused(f),
    }
    say!("\n");
}

// ---- value records

fn value_answer(image: &[u8], at: usize) {
    match cell_key_value::read_key_value(image, at) {
        Ok(value) => say!(" read {}", state(value.allocated)),
        Err(f) => refused(f),
    }
    text(" name", cell_key_value::value_name(image, at));
    say!("\n");
}

fn value_case(at: usize, size: u32, sign: u16, name: u16, length: usize) {
    tried("value at", at, length, size, sign, name);
    let mut image = [0u8; 48];
    put_record(&mut image, at, size, sign, 6, name, 24);
    value_answer(words::part(&image, 0, length), at);
}

fn value_numbers() {
    say!("value numbers:");
    let image =
        b"\xe8\xff\xff\xffvk\x00\x00\x08\x09\x0a\x8b\x0c\x0d\x0e\xff\x10\x11\x12\x13\x14\x15\x16\x17";
    match cell_key_value::read_key_value(image, 0) {
        Ok(value) => say!(
            " {} {} {} {} {} {} {}",
            value.size,
            state(value.allocated),
            value.value_name_size,
            value.data_size_raw,
            value.data_offset_relative,
            value.data_type_raw,
            value.flags_raw,
        ),
        Err(f) => refused(f),
    }
    say!("\n");
}

// ---- value lists

fn places(out: &[u32]) {
    say!(" |");
    for place in out {
        say!(" {place}");
    }
    say!("\n");
}

fn list_answer(answer: Result<u32, RoomRefusal>) {
    match answer {
        Ok(n) => say!(" listed {n}"),
        Err(f) => say!(
            " refused {} {} {}",
            f.reason.number(),
            f.position,
            f.places,
        ),
    }
}

// The numbers of a key record: base, count and offset.
fn numbers(base: u32, count: u32, offset: i32) {
    say!(", base {base}, count {count}, offset {offset}");
}

// In the first bytes of an image that has a list of two entries at 4: 16 and 2147483680.
fn list_line(length: usize, base: u32, count: u32, offset: i32, out: &mut [u32]) {
    say!("values in {length}");
    numbers(base, count, offset);
    say!(":");
    let whole = b"head\xf0\xff\xff\xff\x10\x00\x00\x00\x20\x00\x00\x80";
    let image = words::part(whole, 0, length);
    list_answer(cell_key_node::value_list(image, base, count, offset, out));
    places(out);
}

// Into a buffer of so many places, at most three.
fn list_case(places: usize, length: usize, base: u32, count: u32, offset: i32) {
    let mut out = [7u32; 3];
    list_line(length, base, count, offset, &mut out[..places.min(3)]);
}

// ---- lookups

fn put_value(image: &mut [u8], at: usize, size: u32, name: u16, flags: u16) {
    if at < image.len() {
        put_32(image, at, size);
        put_16(image, at + 4, VK);
        put_16(image, at + 6, name);
        put_16(image, at + 20, flags);
    }
}

// With base 4, a list of three entries at offset 8: an allocated record `Speed` at 32, a free one with no name and no flag at 64,
// and an allocated one with the letters C0 and x at 96.
fn put_list(image: &mut [u8]) {
    put_32(image, 12, 0xFFFFFFF0);
    put_32(image, 16, 28);
    put_32(image, 20, 60);
    put_32(image, 24, 92);
}

fn put_speed(image: &mut [u8]) {
    put_value(image, 32, 0xFFFFFFE0, 5, 1);
    put_32(image, 56, 0x65657053);
    put(image, 60, b'd');
}

fn put_values(image: &mut [u8]) {
    put_list(image);
    put_speed(image);
    put_value(image, 64, 32, 0, 0);
    put_value(image, 96, 0xFFFFFFE0, 2, 1);
    put_16(image, 120, 0x78C0);
}

fn values_image() -> [u8; 128] {
    let mut image = [0u8; 128];
    put_values(&mut image);
    image
}

fn found_line(answer: Result<FoundValue, Refusal>) {
    say!(":");
    match answer {
        Ok(found) => {
            say!(" found {}", found.position);
            found_value(found.value);
        }
        Err(f) => refused(f),
    }
    say!("\n");
}

fn found_value(value: KeyValue) {
    say!(
        " {} {} {} {}",
        value.size,
        state(value.allocated),
        value.value_name_size,
        value.flags_raw,
    );
}

fn changed(at: usize, n: u8) {
    say!("lookup, byte {at} as {n},");
}

fn look_changed(at: usize, n: u8, name: &[u8]) {
    let mut image = values_image();
    put(&mut image, at, n);
    found_line(cell_key_value::find_value(&image, 4, 3, 8, name));
}

// A lookup in the image of three values, with one byte of it changed.
fn look(at: usize, n: u8, name: &[u8]) {
    changed(at, n);
    text("", name);
    look_changed(at, n, name);
}

fn look_none(at: usize, n: u8) {
    look(at, n, b"");
}

// The same for a name of two bytes, told in hex.
fn look_odd(at: usize, n: u8, first: u8, second: u8) {
    let name = [first, second];
    changed(at, n);
    say!(" {first:02x} {second:02x}");
    look_changed(at, n, &name);
}

// A lookup of `x` in the same image, by other numbers of the key record.
fn find(base: u32, count: u32, offset: i32) {
    let image = values_image();
    say!("lookup");
    numbers(base, count, offset);
    text(",", b"x");
    found_line(cell_key_value::find_value(&image, base, count, offset, b"x"));
}

// ---- from a key record

// The same image with a key record behind it, at 128, which has 2 subkeys in the list at offset 204 and 3 values in the list at 8.
fn keyed_image() -> [u8; 224] {
    let mut image = [0u8; 224];
    put_values(&mut image);
    put_32(&mut image, 128, 0xFFFFFFB0);
    put_16(&mut image, 132, NK);
    put_32(&mut image, 152, 2);
    put_32(&mut image, 160, 204);
    put_32(&mut image, 168, 3);
    put_32(&mut image, 172, 8);
    put_32(&mut image, 208, 0xFFFFFFF0);
    put_32(&mut image, 212, 0x0002696C);
    put_32(&mut image, 216, 16);
    put_32(&mut image, 220, 32);
    image
}

fn values_line(image: &[u8], key: KeyNode) {
    let mut out = [7u32; 3];
    let answer = key_in_place::value_list_of(image, key, &mut out);
    say!("values of a record:");
    list_answer(answer);
    places(&out);
}

fn walk_answer(answer: Result<Counts, WalkRefusal>) {
    match answer {
        Ok(counts) => say!(
            " read {} {} {} {}",
            counts.kept,
            counts.lists,
            counts.entries,
            counts.dropped,
        ),
        Err(f) => say!(" refused {} {}", f.reason.number(), f.position),
    }
}

fn sub_keys_line(image: &[u8], key: KeyNode) {
    let mut out = [7u32; 3];
    let answer = key_in_place::sub_keys_of(image, key, 1024, &mut out);
    say!("subkeys of a record:");
    walk_answer(answer);
    places(&out);
}

fn value_of_record_line(image: &[u8], key: KeyNode) {
    say!("SPEED in a record");
    found_line(key_in_place::find_value_of(image, key, b"SPEED"));
}

fn lines_of(image: &[u8], key: KeyNode) {
    values_line(image, key);
    sub_keys_line(image, key);
    value_of_record_line(image, key);
}

// A record in the image that it is of, and then in one that ends before it.
fn record_lines() {
    let image = keyed_image();
    match cell_key_node::read_key_node(&image, 128, 4) {
        Ok(key) => {
            lines_of(&image, key);
            lines_of(&values_image(), key);
        }
        Err(f) => {
            refused(f);
            say!("\n");
        }
    }
}

// ---- hashes

fn hash_answer(flags: u16, name: &[u8]) {
    match name_hash::name_hash(flags, name) {
        Ok(hash) => say!(": hash {hash}"),
        Err(f) => {
            say!(":");
            refused(f);
        }
    }
    say!("\n");
}

fn hash_tried(flags: u16) {
    say!("hash, flags {flags:04x},");
}

fn hash_of_bytes(flags: u16, name: &[u8]) {
    hash_tried(flags);
    for byte in name {
        say!(" {byte:02x}");
    }
    hash_answer(flags, name);
}

// The first bytes of a word, the lowest first, as a name.
fn hash_case(flags: u16, length: usize, bytes: u32) {
    hash_of_bytes(flags, words::part(&bytes.to_le_bytes(), 0, length));
}

fn hash_name(flags: u16, name: &[u8]) {
    hash_tried(flags);
    text("", name);
    hash_answer(flags, name);
}

// ---- the cases

// Where a key record may stand: 2, then 1.
fn key_positions() {
    key_case(88, 0xffffffb0, NK, 0, 87);
    key_case(87, 0xffffffb0, NK, 0, 87);
    key_case(7, 0xffffffb0, NK, 0, 86);
    key_case(7, 0xffffffb0, NK, 0, 87);
    key_case(0, 0xffffffb0, NK, 0, 80);
    key_case(0, 0xffffffb0, NK, 0, 0);
    key_case(1, 0xffffffb0, NK, 0, 0);
    key_case(18446744073709551615, 0xffffffb0, NK, 0, 87);
    key_case(7, 0x0, VK, 9, 86);
}

// Its size word: 3, below 80 or above what is left, of either sign.
fn key_sizes() {
    key_case(7, 0xffffffb1, NK, 0, 95);
    key_case(7, 0xffffffb0, NK, 0, 95);
    key_case(7, 0xffffffaf, NK, 0, 95);
    key_case(7, 0x4f, NK, 0, 95);
    key_case(7, 0x50, NK, 0, 95);
    key_case(7, 0x51, NK, 0, 95);
    key_case(7, 0x0, NK, 0, 95);
    key_case(7, 0xffffffa8, NK, 0, 95);
    key_case(7, 0xffffffa7, NK, 0, 95);
    key_case(7, 0x58, NK, 0, 95);
    key_case(7, 0x59, NK, 0, 95);
    key_case(7, 0x80000000, NK, 0, 95);
    key_case(7, 0x80000001, NK, 0, 95);
    key_case(7, 0x7fffffff, NK, 0, 95);
    key_case(7, 0x4f, VK, 9, 95);
}

// Its signature: 4. The end of its name: 5.
fn key_signs_and_names() {
    key_case(7, 0xffffffa8, VK, 0, 95);
    key_case(7, 0xffffffa8, 0x6E6B, 0, 95);
    key_case(7, 0xffffffa8, 0x6B4E, 0, 95);
    key_case(7, 0xffffffb0, VK, 1, 95);
    key_case(7, 0xffffffb0, NK, 1, 95);
    key_case(7, 0xffffffaf, NK, 1, 95);
    key_case(7, 0xffffffaf, NK, 2, 95);
    key_case(7, 0x51, NK, 1, 95);
    key_case(7, 0xffffffa8, NK, 4, 95);
    key_case(7, 0xffffffa8, NK, 7, 95);
    key_case(7, 0xffffffa8, NK, 8, 95);
    key_case(7, 0xffffffa8, NK, 9, 95);
    key_case(7, 0xffffffac, NK, 4, 95);
    key_case(7, 0xffffffa8, NK, 65535, 95);
}

// Value records: the same checks, of 24 bytes and "vk".
fn value_records() {
    value_case(32, 0xffffffe8, VK, 0, 31);
    value_case(31, 0xffffffe8, VK, 0, 31);
    value_case(7, 0xffffffe8, VK, 0, 30);
    value_case(7, 0xffffffe8, VK, 0, 31);
    value_case(7, 0xffffffe9, VK, 0, 39);
    value_case(7, 0x17, VK, 0, 39);
    value_case(7, 0x18, VK, 0, 39);
    value_case(7, 0xffffffe0, VK, 0, 39);
    value_case(7, 0xffffffdf, VK, 0, 39);
    value_case(7, 0x21, VK, 0, 39);
    value_case(7, 0x80000000, VK, 0, 39);
    value_case(7, 0xffffffe0, NK, 0, 39);
    value_case(7, 0xffffffe0, NK, 9, 39);
    value_case(7, 0xffffffe8, VK, 1, 39);
    value_case(7, 0xffffffe7, VK, 1, 39);
    value_case(7, 0xffffffe7, VK, 2, 39);
    value_case(7, 0x20, VK, 8, 39);
    value_case(7, 0xffffffe0, VK, 9, 39);
    value_case(7, 0xffffffe9, NK, 9, 39);
}

// Every number of a record, each its own.
fn every_number() {
    key_numbers();
    value_numbers();
}

// Value lists: count 0, then 6.
fn list_offsets() {
    list_case(3, 16, 0, 0, 0);
    list_case(3, 0, 4294967295, 0, -1);
    list_case(3, 16, 0, 1, 0);
    list_case(3, 16, 0, 1, 1);
    list_case(3, 16, 5, 1, -1);
    list_case(3, 16, 0, 1, -2147483648);
    list_case(3, 16, 0, 1, 2147483647);
    list_case(3, 8, 4096, 1, 8);
    list_case(3, 8, 4096, 1, 7);
    list_case(3, 8, 0, 1, 8);
    list_case(3, 8, 0, 1, 7);
    list_case(3, 0, 0, 1, 1);
}

// 7, then 2, then 8.
fn list_counts_and_places() {
    list_case(3, 16, 0, 1048577, 0);
    list_case(3, 16, 0, 1048577, 4);
    list_case(3, 16, 4096, 1048577, 4);
    list_case(3, 16, 0, 4294967295, 4);
    list_case(3, 16, 0, 1048576, 4);
    list_case(3, 16, 4096, 1048576, 4);
    list_case(3, 16, 2, 1, 15);
    list_case(3, 16, 1, 1, 15);
    list_case(3, 16, 4294967295, 2, 4);
    list_case(3, 16, 0, 1, 4);
    list_case(3, 16, 0, 2, 4);
    list_case(3, 15, 0, 2, 4);
    list_case(3, 16, 0, 3, 4);
    list_case(3, 16, 3, 2, 1);
}

// Last 9, with the places needed.
fn list_rooms() {
    list_case(2, 16, 0, 2, 4);
    list_case(1, 16, 0, 2, 4);
    list_case(0, 16, 0, 2, 4);
    list_case(1, 16, 0, 1, 4);
    list_case(0, 16, 0, 1, 4);
    list_case(0, 16, 0, 0, 4);
    list_case(1, 15, 0, 2, 4);
    list_case(0, 16, 0, 1, 0);
}

// The same from a key record, by value.
fn from_a_record() {
    record_lines();
}

// Lookups in a list of three: `Speed` at 32, no name at 64, the letters C0 and x at 96. Byte 0 is none of theirs.
fn lookup_names() {
    look(0, 0, b"Speed");
    look(0, 0, b"SPEED");
    look(0, 0, b"sPeEd");
    look(0, 0, b"Spee");
    look(0, 0, b"Speeds");
    look_none(0, 0);
    look_odd(0, 0, 0xc0, b'x');
    look_odd(0, 0, 0xc0, b'X');
    look_odd(0, 0, 0xe0, b'x');
    look_odd(0, 0, 0xc0, 0);
    look(56, b'A', b"apeed");
    look(56, b'Z', b"zpeed");
    look(56, b'z', b"Zpeed");
    look(56, b'@', b"`peed");
    look(56, b'[', b"{peed");
    look(56, b'{', b"[peed");
}

// Flag 0001: of the first record at 52, of the second at 84. The third name has its length at 102.
fn lookup_flags() {
    look(52, 0, b"Speed");
    look(52, 2, b"Speed");
    look(52, 3, b"Speed");
    look_none(52, 0);
    look_none(84, 1);
    look_none(102, 0);
}

// Records that cannot be read, before the match and after it: signatures, sizes, names and entries.
fn lookup_damaged() {
    look(36, b'x', b"Speed");
    look_none(36, b'x');
    look(68, b'x', b"Speed");
    look_none(68, b'x');
    look_odd(68, b'x', 0xc0, b'x');
    look(100, b'x', b"Speed");
    look_none(100, b'x');
    look(100, b'x', b"Speeds");
    look_odd(64, 23, 0xc0, b'x');
    look_odd(64, 24, 0xc0, b'x');
    look_odd(96, 0xdf, 0xc0, b'x');
    look_odd(70, 8, 0xc0, b'x');
    look_odd(70, 9, 0xc0, b'x');
    look_odd(24, 124, 0xc0, b'x');
    look_odd(24, 125, 0xc0, b'x');
    look_none(23, 255);
}

// The list's own refusals come first. No record is named `x`, and the entries after the third lead to none.
fn lookup_lists() {
    find(4, 0, 8);
    find(4294967295, 0, -1);
    find(4, 1, 0);
    find(4, 1, -1);
    find(4, 1, 128);
    find(4, 1, 127);
    find(4, 1048577, 8);
    find(4, 1048576, 8);
    find(4096, 1, 8);
    find(4, 1, 8);
    find(4, 3, 8);
    find(4, 28, 8);
    find(4, 29, 8);
}

// Hashes of bytes, where flag 0020 is set.
fn hashes_of_bytes() {
    hash_case(0x20, 0, 0x0);
    hash_case(0x20, 1, 0x41);
    hash_case(0x20, 1, 0x61);
    hash_case(0x20, 2, 0x6261);
    hash_case(0x20, 2, 0x4241);
    hash_case(0x20, 1, 0x60);
    hash_case(0x20, 1, 0x7a);
    hash_case(0x20, 1, 0x7b);
    hash_case(0x20, 1, 0xdf);
    hash_case(0x20, 1, 0xe0);
    hash_case(0x20, 1, 0xf6);
    hash_case(0x20, 1, 0xf7);
    hash_case(0x20, 1, 0xf8);
    hash_case(0x20, 1, 0xfe);
    hash_case(0x20, 1, 0xff);
    hash_case(0xffff, 1, 0xff);
    hash_case(0x20, 3, 0x7a7a7a);
    hash_name(0x20, b"Terminal0000");
    hash_name(0x20, b"zzzzzzz");
}

// Hashes of units of 16 bits, where it is clear.
fn hashes_of_units() {
    hash_case(0x0, 0, 0x0);
    hash_case(0x0, 2, 0x41);
    hash_case(0x0, 4, 0x620061);
    hash_case(0xffdf, 4, 0x620061);
    hash_case(0x0, 1, 0x41);
    hash_case(0x0, 3, 0x620041);
    hash_case(0xffdf, 3, 0x620041);
    hash_case(0x10, 1, 0x41);
    hash_case(0x40, 1, 0x41);
    hash_case(0x0, 2, 0xff);
    hash_case(0x0, 2, 0x100);
    hash_case(0x0, 2, 0x161);
    hash_case(0x0, 2, 0x42f);
    hash_case(0x0, 2, 0x430);
    hash_case(0x0, 2, 0x44f);
    hash_case(0x0, 2, 0x450);
    hash_case(0x0, 2, 0x45f);
    hash_case(0x0, 2, 0x460);
    hash_case(0x0, 2, 0xffff);
    hash_case(0x0, 4, 0x4300061);
    hash_name(0x0, b"zzzzzzzz");
}

fn main() {
    key_positions();
    key_sizes();
    key_signs_and_names();
    value_records();
    every_number();
    list_offsets();
    list_counts_and_places();
    list_rooms();
    from_a_record();
    lookup_names();
    lookup_flags();
    lookup_damaged();
    lookup_lists();
    hashes_of_bytes();
    hashes_of_units();
}
