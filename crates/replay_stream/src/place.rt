// A key record that knows its place: the record that a name holds given with an image to each function that holds it to its place, and the place
// of the record that is read at a position.
use super::lines::refused;
use super::{totals, values, walks};
use cell_key_node::KeyNode;
use console::say;
use replay_case::Case;

// The bytes of a record in a name: what is looked for stands behind them.
const RECORD: usize = 96;

// The record that a name holds: its place, whether it is allocated, and its cell's numbers from byte 16 on.
fn record_in(name: &[u8]) -> KeyNode {
    KeyNode {
        position: words::u64_at(name, 0) as usize,
        base: words::u32_at(name, 8),
        size: words::i32_at(name, 16),
        allocated: words::u32_at(name, 12) != 0,
        key_node_flag_bits: words::u16_at(name, 22),
        last_key_written_time: words::u64_at(name, 24),
        access_flag_bits: words::u32_at(name, 32),
        parent_key_offset_relative: words::i32_at(name, 36),
        number_of_sub_keys: words::u32_at(name, 40),
        number_of_volatile_sub_keys: words::u32_at(name, 44),
        sub_keys_list_offset_relative: words::u32_at(name, 48),
        volatile_sub_keys_list_offset_relative: words::i32_at(name, 52),
        number_of_key_values: words::u32_at(name, 56),
        key_values_list_offset_relative: words::i32_at(name, 60),
        security_key_offset_relative: words::u32_at(name, 64),
        class_name_offset_relative: words::i32_at(name, 68),
        largest_sub_key_name_size: words::u32_at(name, 72),
        largest_sub_key_class_name_size: words::u32_at(name, 76),
        largest_value_name_size: words::u32_at(name, 80),
        largest_value_data_size: words::u32_at(name, 84),
        work_var: words::u32_at(name, 88),
        key_name_size: words::u16_at(name, 92),
        class_name_size: words::u16_at(name, 94),
    }
}

// The word b says which function, a is the minor version, d the budget, c the number that is in the table.
fn given(case: Case, image: &[u8], key: KeyNode, text: &[u8], out: &mut [u32]) {
    match case.b {
        1 => walks::walk_of(false, image, key, case.d, case.a, out),
        2 => walks::counts_of(false, image, key, case.d, case.a),
        3 => walks::walk_of(true, image, key, case.d, case.a, out),
        4 => walks::counts_of(true, image, key, case.d, case.a),
        5 => values::values_of(image, key, out),
        6 => values::lookup_of(image, key, text),
        7 => totals::one_call(true, image, key, case.d, case.c),
        8 => totals::one_call(false, image, key, case.d, case.c),
        _ => say!(" ok {}", key_in_place::is_in_place(image, key) as u8),
    }
}

// A record given with an image, with the first places of a buffer lent.
pub fn with_record(case: Case, image: &[u8], name: &[u8], out: &mut [u32]) {
    let n = case.e as usize;
    if out.len() < n {
        say!(" bad room");
        return;
    }
    given(
        case,
        image,
        record_in(name),
        words::from(name, RECORD),
        &mut out[..n],
    );
}

// The place of the record at a position of 64 bits.
pub fn record_place(case: Case, image: &[u8]) {
    match cell_key_node::read_key_node(image, walks::joined(case.a, case.b), case.c) {
        Ok(key) => say!(
            " ok {} {} {}",
            key.position,
            key.base,
            key_in_place::is_in_place(image, key) as u8,
        ),
        Err(refusal) => refused(refusal),
    }
}
