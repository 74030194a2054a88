// The fields of records, and the names of kinds.
ghost use Rattle.std.specs.Prelude.{◌≡◌};
ghost use Rattle.words.specs.Words.{signed};
ghost use Rattle.replay_stream.specs.Kinds.{type_name, format_name};

use super::lines;
use base_block::{FileFormat, FileType};
use cell_key_node::KeyNode;
use cell_key_value::KeyValue;
use console::say;

pub fn file_type(kind: FileType) -> &'static str
    ensures { result.now ≡ type_name kind }
{
    match kind {
        FileType::Primary => "primary",
        FileType::TransactionLog => "log",
        FileType::TransactionLogNewFormat => "newlog",
        FileType::UnknownType => "unknown",
    }
}

pub fn file_format(kind: FileFormat) -> &'static str
    ensures { result.now ≡ format_name kind }
{
    match kind {
        FileFormat::DirectMemoryLoad => "direct",
        FileFormat::UnknownFormat => "unknown",
    }
}

// The signed number that a word's bits are.
#[tactic(auto, using(words::proofs::Signed::held), unfolding(words::specs::Words::signed))]
pub fn as_signed(x: u32) -> i32
    ensures { result ≡ signed x }
{
    x.cast_signed()
}

// The parts of a base block's image.
pub fn block_parts(image: &[u8]) {
    lines::hex(base_block::filename(image));
    lines::row(base_block::unnamed(image));
    lines::hex(base_block::rm_id(image));
    lines::hex(base_block::log_id(image));
    lines::hex(base_block::tm_id(image));
    lines::row(base_block::remaining(image));
}

pub fn key_fields(key: KeyNode) {
    say!(
        " {} {} {} {} {} {} {} {} {} {} {} {} {} {} {} {} {} {} {} {} {}",
        key.size,
        key.allocated as u8,
        key.key_node_flag_bits,
        key.last_key_written_time,
        key.access_flag_bits,
        key.parent_key_offset_relative,
        key.number_of_sub_keys,
        key.number_of_volatile_sub_keys,
        key.sub_keys_list_offset_relative,
        key.volatile_sub_keys_list_offset_relative,
        key.number_of_key_values,
        key.key_values_list_offset_relative,
        key.security_key_offset_relative,
        key.class_name_offset_relative,
        key.largest_sub_key_name_size,
        key.largest_sub_key_class_name_size,
        key.largest_value_name_size,
        key.largest_value_data_size,
        key.work_var,
        key.key_name_size,
        key.class_name_size,
    );
}

pub fn value_fields(value: KeyValue) {
    say!(
        " {} {} {} {} {} {} {}",
        value.size,
        value.allocated as u8,
        value.value_name_size,
        value.data_size_raw,
        value.data_offset_relative,
        value.data_type_raw,
        value.flags_raw,
    );
}

pub fn big_data(image: &[u8]) {
    say!(" ok {}", cell_big_data::is_big_data_block(image) as u8);
}
