// The functions that the Rust has too, each called with what a case gives it, and of its answer what the Rust tells.
use base_block::BaseBlock;
use console::say;
use replay_case::{Case, Sums};
use replay_stream::lines;
use replay_stream::records::{
    as_signed, big_data, block_parts, file_format, file_type, key_fields, value_fields,
};
use replay_stream::stream::Answers;
use sub_key_list::SubKeyList;
use words::Reason;

fn error() {
    say!(" error");
}

// A refusal of a list: by 6 and 7 the Rust gives an empty result.
fn error_or_empty(reason: Reason) {
    match reason {
        Reason::NoList | Reason::TooMany => say!(" empty"),
        _ => error(),
    }
}

// The places that a list wrote: their number and their sums.
fn places(out: &[u32], count: u32) {
    let n = count as usize;
    say!(" ok {count}");
    if n <= out.len() {
        lines::summed(Sums::of_row(&out[..n]));
    }
}

fn checksum(image: &[u8]) {
    match base_block::calculate_checksum(image) {
        Ok(sum) => say!(" ok {sum}"),
        Err(_) => error(),
    }
}

fn block_fields(block: BaseBlock) {
    say!(
        " {} {} {} {} {} {} {} {} {} {} {} {} {} {} {} {}",
        block.primary_sequence_number,
        block.secondary_sequence_number,
        block.last_modification_time,
        block.major_version,
        block.minor_version,
        file_type(block.file_type),
        file_format(block.format),
        block.root_cell_offset,
        block.hive_bins_data_size,
        block.clustering_factor,
        block.checksum,
        block.flags,
        block.signature,
        block.last_reorganized_time,
        block.boot_type,
        block.boot_recover,
    );
}

fn block(image: &[u8]) {
    match base_block::read_base_block(image) {
        Ok(block) => {
            say!(" ok");
            block_fields(block);
            block_parts(image);
        }
        Err(_) => error(),
    }
}

fn values(image: &[u8], case: Case, out: &mut [u32]) {
    match cell_key_node::value_list(image, case.c, case.a, as_signed(case.b), out) {
        Ok(count) => places(out, count),
        Err(refusal) => error_or_empty(refusal.reason),
    }
}

fn walk(image: &[u8], case: Case, out: &mut [u32]) {
    match sub_key_walk::sub_keys(image, case.c, case.a, case.b, case.d, out) {
        Ok(counts) => places(out, counts.kept),
        Err(refusal) => error_or_empty(refusal.reason),
    }
}

fn key(image: &[u8], position: usize, base: u32) {
    match cell_key_node::read_key_node(image, position, base) {
        Ok(key) => {
            say!(" ok");
            key_fields(key);
            lines::hex(cell_key_node::key_name(image, position));
            lines::row(cell_key_node::key_slack(image, position));
        }
        Err(_) => error(),
    }
}

fn value(image: &[u8], position: usize) {
    match cell_key_value::read_key_value(image, position) {
        Ok(value) => {
            say!(" ok");
            value_fields(value);
            lines::hex(cell_key_value::value_name(image, position));
        }
        Err(_) => error(),
    }
}

fn list(image: &[u8], position: usize) {
    match sub_key_list::read_list(image, position) {
        Ok(SubKeyList::Leaf(leaf)) => say!(" ok {} {}", leaf.kind.word(), leaf.count),
        Ok(SubKeyList::Index(index)) => say!(" ok 26994 {}", index.count),
        Err(_) => error(),
    }
}

// A case that has a buffer, with its first places lent.
fn with_room(tag: u8, case: Case, image: &[u8], out: &mut [u32], room: u32) {
    let n = room as usize;
    if out.len() < n {
        say!(" bad room");
        return;
    }
    if tag == 4 {
        values(image, case, &mut out[..n]);
    } else {
        walk(image, case, &mut out[..n]);
    }
}

// The name is for a lookup, which the Rust has only after its own decoding of names.
#[derive(Clone, Copy)]
pub struct Program;

impl Answers for Program {
    fn answer(&self, tag: u8, case: Case, image: &[u8], _name: &[u8], out: &mut [u32]) {
        match tag {
            1 => checksum(image),
            2 => block(image),
            3 => big_data(image),
            4 => with_room(tag, case, image, out, case.d),
            5 => with_room(tag, case, image, out, case.e),
            6 => key(image, case.a as usize, case.c),
            7 => value(image, case.a as usize),
            11 => list(image, case.a as usize),
            _ => say!(" none"),
        }
    }
}
