// Checksums and base blocks at their boundaries, a labelled line for each case; `stdout` has what document 01 says of each.
#![tactic(auto)]

use base_block::{BaseBlock, FileFormat, FileType};
use words::Refusal;

fn text(s: &[u8]) {
    io::write_all(1, s);
}

fn decimal(n: u64) {
    text(b" ");
    io::print_decimal(1, n);
}

fn word(n: u32) {
    decimal(u64::from(n));
}

fn hex(n: u32) {
    text(b" ");
    io::print_hex(1, u64::from(n), 8);
}

fn signed(z: i32) {
    text(b" ");
    if z < 0 {
        text(b"-");
    }
    io::print_decimal(1, u64::from(z.unsigned_abs()));
}

fn refused(f: Refusal) {
    text(b" refused");
    word(f.reason.number());
    decimal(f.position as u64);
}

// Stores a word, as much of it as there is room for.
fn put(image: &mut [u8], at: usize, x: u32) {
    for (place, byte) in image.iter_mut().skip(at).zip(x.to_le_bytes()) {
        *place = byte;
    }
}

// Stores words at their places.
fn put_all(image: &mut [u8], words: &[(usize, u32)]) {
    for (at, x) in words {
        put(image, *at, *x);
    }
}

fn sum(label: &[u8], bytes: &[u8]) {
    text(label);
    match base_block::calculate_checksum(bytes) {
        Ok(x) => hex(x),
        Err(f) => refused(f),
    }
    text(b"\n");
}

fn file_type(kind: FileType) {
    text(match kind {
        FileType::Primary => b" primary",
        FileType::TransactionLog => b" log",
        FileType::TransactionLogNewFormat => b" new-log",
        FileType::UnknownType => b" unknown",
    });
}

fn file_format(kind: FileFormat) {
    text(match kind {
        FileFormat::DirectMemoryLoad => b" direct",
        FileFormat::UnknownFormat => b" unknown",
    });
}

fn kinds_of(b: BaseBlock) {
    file_type(b.file_type);
    word(b.file_type_raw);
    file_format(b.format);
    word(b.format_raw);
}

// The fields in their order.
fn base_fields(b: BaseBlock) {
    word(b.primary_sequence_number);
    word(b.secondary_sequence_number);
    decimal(b.last_modification_time);
    word(b.major_version);
    word(b.minor_version);
    kinds_of(b);
    signed(b.root_cell_offset);
    word(b.hive_bins_data_size);
    word(b.clustering_factor);
    hex(b.checksum);
    hex(b.computed_checksum);
}

fn extension_fields(b: BaseBlock) {
    hex(b.flags);
    hex(b.signature);
    decimal(b.last_reorganized_time);
    word(b.boot_type);
    word(b.boot_recover);
}

fn block(label: &[u8], image: &[u8]) {
    text(label);
    match base_block::read_base_block(image) {
        Ok(b) => {
            base_fields(b);
            extension_fields(b);
        }
        Err(f) => refused(f),
    }
    text(b"\n");
}

// Type and format alone.
fn kinds(kind: u32, format: u32) {
    let mut image = [0u8; 4096];
    put(&mut image, 0, 0x6667_6572);
    put(&mut image, 28, kind);
    put(&mut image, 32, format);
    text(b"kinds");
    match base_block::read_base_block(&image) {
        Ok(b) => kinds_of(b),
        Err(f) => refused(f),
    }
    text(b"\n");
}

fn root(offset: u32) {
    let mut image = [0u8; 4096];
    put(&mut image, 0, 0x6667_6572);
    put(&mut image, 36, offset);
    text(b"root");
    match base_block::read_base_block(&image) {
        Ok(b) => signed(b.root_cell_offset),
        Err(f) => refused(f),
    }
    text(b"\n");
}

// A part's length and its first and last bytes.
fn part(label: &[u8], p: &[u8]) {
    text(label);
    decimal(p.len() as u64);
    if let (Some(first), Some(last)) = (p.first(), p.last()) {
        decimal(u64::from(*first));
        decimal(u64::from(*last));
    }
    text(b"\n");
}

fn parts(image: &[u8]) {
    part(b"filename", base_block::filename(image));
    part(b"unnamed", base_block::unnamed(image));
    part(b"rm_id", base_block::rm_id(image));
    part(b"log_id", base_block::log_id(image));
    part(b"tm_id", base_block::tm_id(image));
    part(b"remaining", base_block::remaining(image));
}

fn big_data(label: &[u8], cell: &[u8]) {
    text(label);
    let yes = cell_big_data::is_big_data_block(cell);
    text(if yes { b" yes\n" } else { b" no\n" });
}

fn sums() {
    let zeros = [0u8; 508];
    sum(b"508 zero bytes:", &zeros);
    sum(b"507 zero bytes:", &[0u8; 507]);
    sum(b"no bytes:", &[0u8; 0]);
    let mut first = [0u8; 508];
    put(&mut first, 0, 0xFFFF_FFFF);
    sum(b"first word FFFFFFFF:", &first);
    put(&mut first, 0, 0xFFFF_FFFE);
    sum(b"first word FFFFFFFE:", &first);
    put(&mut first, 0, 1);
    sum(b"first word 1:", &first);
    put(&mut first, 4, 1);
    sum(b"first two words 1:", &first);
    let mut last = [0u8; 512];
    put(&mut last, 504, 0x1234_5678);
    sum(b"last word 12345678:", &last);
    put(&mut last, 508, 0x1234_5678);
    sum(b"and the same behind it:", &last);
}

fn short_blocks() {
    block(b"4095 zero bytes:", &[0u8; 4095]);
    block(b"4096 zero bytes:", &[0u8; 4096]);
    let mut short = [0u8; 4095];
    put(&mut short, 0, 0x6667_6572);
    block(b"4095 bytes with regf:", &short);
}

// The header of document 01's own example, but for its checksum.
const EXAMPLE: [(usize, u32); 8] = [
    (4, 1),
    (8, 1),
    (20, 1),
    (24, 5),
    (32, 1),
    (36, 32),
    (40, 4096),
    (44, 1),
];

const EXTENSION: [(usize, u32); 8] = [
    (12, 0x89AB_CDEF),
    (16, 0x0123_4567),
    (544, 2),
    (564, 0x7374_7278),
    (568, 1),
    (572, 1),
    (4088, 7),
    (4092, 8),
];

// The first and the last word of each part: its first byte is an odd number, and its last is one more.
const BASE_MARKS: [(usize, u32); 6] = [
    (48, 0xFF00_0001),
    (108, 0x0200_00FF),
    (112, 0xFF00_0003),
    (504, 0x0400_00FF),
    (576, 0xFF00_000B),
    (4084, 0x0C00_00FF),
];

const ID_MARKS: [(usize, u32); 6] = [
    (512, 0xFF00_0005),
    (524, 0x0600_00FF),
    (528, 0xFF00_0007),
    (540, 0x0800_00FF),
    (548, 0xFF00_0009),
    (560, 0x0A00_00FF),
];

fn blocks() {
    let mut image = [0u8; 4096];
    put(&mut image, 0, 0x6667_6573);
    block(b"segf:", &image);
    put(&mut image, 0, 0x6667_6572);
    block(b"regf alone:", &image);
    put_all(&mut image, &EXAMPLE);
    put(&mut image, 508, 0x6667_7556);
    block(b"the listing's example:", &image);
    put(&mut image, 508, 0x6667_7557);
    block(b"a wrong checksum:", &image);
    put_all(&mut image, &EXTENSION);
    block(b"with times and extension:", &image);
}

fn marked() {
    let mut image = [0u8; 4096];
    put(&mut image, 0, 0x6667_6572);
    put_all(&mut image, &BASE_MARKS);
    put_all(&mut image, &ID_MARKS);
    parts(&image);
    text(b"of a refused block:\n");
    put(&mut image, 0, 0x6667_6573);
    parts(&image);
}

fn main() {
    sums();
    short_blocks();
    blocks();
    marked();
    more();
}

fn more() {
    for (kind, format) in [
        (0, 0),
        (1, 1),
        (2, 2),
        (5, 0x0FFF_FFFF),
        (6, 0xFFFF_FFFF),
        (7, 0x0100_0000),
        (0x0FFF_FFFF, 257),
        (0xFFFF_FFFF, 1),
        (0x0100_0000, 1),
    ] {
        kinds(kind, format);
    }
    for offset in [0, 0x7FFF_FFFF, 0x8000_0000, 0xFFFF_FFFF] {
        root(offset);
    }
    big();
}

fn big() {
    big_data(b"no bytes:", b"");
    big_data(b"0000db:", b"0000db");
    big_data(b"0000d:", b"0000d");
    big_data(b"0000:", b"0000");
    big_data(b"0000bd:", b"0000bd");
    big_data(b"0000dB:", b"0000dB");
    big_data(b"000db0:", b"000db0");
    big_data(b"0000db and more:", b"0000db0000");
}
