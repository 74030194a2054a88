// The functions of the project, each called with what a case gives it, and its answer written out.
use base_block::BaseBlock;
use cell::{CellSize, Fit};
use console::say;
use hive_bin::{CellStep, Spot};
use replay_case::Case;
use replay_stream::lines::{refused, room_refused};
use replay_stream::records::{
    as_signed, big_data, block_parts, file_format, file_type, key_fields, value_fields,
};
use replay_stream::stream::Answers;
use replay_stream::values::{lookup_line, values_line};
use replay_stream::walks::joined;
use replay_stream::{buffers, conversion, lines, listings, parts, place, totals, values, walks};
use words::{Refusal, RoomRefusal};

fn checksum(image: &[u8]) {
    match base_block::calculate_checksum(image) {
        Ok(sum) => say!(" ok {sum}"),
        Err(refusal) => refused(refusal),
    }
}

fn block_fields(block: BaseBlock) {
    say!(
        " {} {} {} {} {} {} {} {} {} {} {} {} {} {} {} {} {} {} {}",
        block.primary_sequence_number,
        block.secondary_sequence_number,
        block.last_modification_time,
        block.major_version,
        block.minor_version,
        block.file_type_raw,
        file_type(block.file_type),
        block.format_raw,
        file_format(block.format),
        block.root_cell_offset,
        block.hive_bins_data_size,
        block.clustering_factor,
        block.checksum,
        block.computed_checksum,
        block.flags,
        block.signature,
        block.last_reorganized_time,
        block.boot_type,
        block.boot_recover,
    );
}

fn block(image: &[u8]) {
    match base_block::read_base_block(image) {
        Ok(block) => {
            say!(" ok");
            block_fields(block);
            block_parts(image);
        }
        Err(refusal) => refused(refusal),
    }
}

fn values(image: &[u8], case: Case, out: &mut [u32]) {
    buffers::prefill_known(out);
    let answer = cell_key_node::value_list(image, case.c, case.a, as_signed(case.b), out);
    values_line(answer, out);
}

fn values_of(image: &[u8], case: Case, out: &mut [u32]) {
    match cell_key_node::read_key_node(image, case.a as usize, case.c) {
        Ok(key) => values::values_of(image, key, out),
        Err(refusal) => refused(refusal),
    }
}

fn key(image: &[u8], position: usize, base: u32) {
    let name = cell_key_node::key_name(image, position);
    let slack = cell_key_node::key_slack(image, position);
    match cell_key_node::read_key_node(image, position, base) {
        Ok(key) => {
            say!(" ok");
            key_fields(key);
            lines::hex(name);
            lines::row(slack);
        }
        Err(refusal) => {
            refused(refusal);
            say!(" {} {}", name.len(), slack.len());
        }
    }
}

fn value(image: &[u8], position: usize) {
    let name = cell_key_value::value_name(image, position);
    match cell_key_value::read_key_value(image, position) {
        Ok(value) => {
            say!(" ok");
            value_fields(value);
            lines::hex(name);
        }
        Err(refusal) => {
            refused(refusal);
            say!(" {}", name.len());
        }
    }
}

fn lookup(image: &[u8], case: Case, name: &[u8]) {
    lookup_line(cell_key_value::find_value(image, case.c, case.a, as_signed(case.b), name));
}

fn lookup_of(image: &[u8], case: Case, name: &[u8]) {
    match cell_key_node::read_key_node(image, case.a as usize, case.c) {
        Ok(key) => values::lookup_of(image, key, name),
        Err(refusal) => refused(refusal),
    }
}

fn hash(flags: u16, name: &[u8]) {
    match name_hash::name_hash(flags, name) {
        Ok(hash) => say!(" ok {hash}"),
        Err(refusal) => refused(refusal),
    }
}

// Where a reader of cells stands: the words a and b are the bin's start, c and d the place.
fn spot_of(case: Case) -> Spot {
    Spot {
        bin: joined(case.a, case.b),
        place: joined(case.c, case.d),
    }
}

fn step_line(step: Result<Option<CellStep>, Refusal>) {
    match step {
        Ok(Some(cell)) => say!(
            " ok cell {} {} {} {}",
            cell.place,
            cell.size,
            cell.next.bin,
            cell.next.place,
        ),
        Ok(None) => say!(" ok end"),
        Err(refusal) => refused(refusal),
    }
}

fn deleted(image: &[u8], case: Case, out: &mut [u64]) {
    buffers::prefill_known(out);
    match deleted_keys::deleted_keys(image, case.a, case.b, out) {
        Ok(count) => {
            say!(" ok {count}");
            buffers::written(out, count);
        }
        Err(refusal) => {
            room_refused(refusal);
            buffers::untouched(out, 0);
        }
    }
}

// A case that has a buffer of 64-bit places, with its first places lent.
fn with_wide(case: Case, image: &[u8]) {
    let mut wide = [0u64; 8192];
    let n = case.e as usize;
    if 8192 < n {
        say!(" bad room");
        return;
    }
    deleted(image, case, &mut wide[..n]);
}

fn words_at(image: &[u8], at: usize) {
    say!(
        " ok {} {} {} {} {}",
        words::byte_at(image, at),
        words::u16_at(image, at),
        words::u32_at(image, at),
        words::u64_at(image, at),
        words::i32_at(image, at),
    );
}

fn cell_size(size: CellSize) {
    say!(" {} {}", size.magnitude, size.allocated as u8);
}

fn cell_line(answer: Result<Fit, Refusal>) {
    match answer {
        Ok(Fit::Held(size)) => {
            say!(" ok held");
            cell_size(size);
        }
        Ok(Fit::TooSmall(size)) => {
            say!(" ok small");
            cell_size(size);
        }
        Err(refusal) => refused(refusal),
    }
}

// The number of a case's words c and d, or its lower part, written at the place b in the width a.
fn put_number(case: Case, out: &mut [u8]) -> bool {
    let at = case.b as usize;
    match case.a {
        2 => writing::put_u16(out, at, (case.c % 65536) as u16),
        4 => writing::put_u32(out, at, case.c),
        _ => writing::put_u64(out, at, joined(case.c, case.d) as u64),
    }
}

fn put_line(case: Case, out: &mut [u8]) {
    buffers::prefill_known(out);
    say!(" ok {}", put_number(case, out) as u8);
    buffers::told(out);
}

fn put(case: Case) {
    let mut bytes = [0u8; 32];
    let n = case.e as usize;
    if 32 < n {
        say!(" bad room");
        return;
    }
    put_line(case, &mut bytes[..n]);
}

fn data_line(answer: Result<u32, RoomRefusal>, out: &[u8]) {
    match answer {
        Ok(count) => say!(" ok {count}"),
        Err(refusal) => room_refused(refusal),
    }
    buffers::told(out);
}

// By the words a and b as a record's numbers, or by the record at the position a.
fn data(image: &[u8], case: Case, out: &mut [u8]) {
    buffers::prefill_known(out);
    let answer = value_data::value_data(image, case.c, case.d, case.a, case.b, out);
    data_line(answer, out);
}

fn data_of(image: &[u8], case: Case, out: &mut [u8]) {
    match cell_key_value::read_key_value(image, case.a as usize) {
        Ok(value) => {
            buffers::prefill_known(out);
            let answer = value_data::value_data_of(image, case.c, case.d, value, out);
            data_line(answer, out);
        }
        Err(refusal) => refused(refusal),
    }
}

// A case that has a buffer of bytes, with its first bytes lent.
fn with_bytes(tag: u8, case: Case, image: &[u8]) {
    let mut bytes = buffers::bytes_space::<65536>();
    let n = case.e as usize;
    if 65536 < n {
        say!(" bad room");
        return;
    }
    if tag == 21 {
        data(image, case, &mut bytes[..n]);
    } else {
        data_of(image, case, &mut bytes[..n]);
    }
}

// A value list, which has a buffer, with its first places lent.
fn with_room(tag: u8, case: Case, image: &[u8], out: &mut [u32]) {
    let n = case.d as usize;
    if out.len() < n {
        say!(" bad room");
        return;
    }
    match tag {
        4 => values(image, case, &mut out[..n]),
        _ => values_of(image, case, &mut out[..n]),
    }
}

#[derive(Clone, Copy)]
pub struct Program;

impl Answers for Program {
    fn answer(&self, tag: u8, case: Case, image: &[u8], name: &[u8], out: &mut [u32]) {
        match tag {
            1 => checksum(image),
            2 => block(image),
            3 => big_data(image),
            4 | 13 => with_room(tag, case, image, out),
            5 | 11 | 14 | 16 | 17 | 20 | 29..=34 => walks::answer(tag, case, image, name, out),
            6 => key(image, case.a as usize, case.c),
            7 => value(image, case.a as usize),
            8 => lookup(image, case, name),
            9 => hash((case.a % 65536) as u16, image),
            10 => parts::bins_line(hive_bin::check_bins(image, case.a, case.b)),
            12 => words_at(image, case.a as usize),
            15 => lookup_of(image, case, name),
            18 => cell_line(cell::cell_at(image, case.a as usize, case.b as usize)),
            19 => put(case),
            21 | 22 => with_bytes(tag, case, image),
            23 => step_line(cell_reader::tell(image, spot_of(case))),
            24 => with_wide(case, image),
            25 => step_line(hive_bin::step_at(image, spot_of(case))),
            26 => parts::row_of_parts(case, image, name),
            27 => parts::one_part(case, image, name),
            28 => totals::row_of_calls(image, name),
            35..=37 => conversion::answer(tag, case, image, name),
            38 => place::with_record(case, image, name, out),
            39 => place::record_place(case, image),
            40..=42 => listings::answer(tag, case, image, name),
            _ => say!(" none"),
        }
    }
}
