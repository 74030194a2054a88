// Value lists and lookups of a key record's values: each called with what a case gives it, and its answer written out.
use super::buffers;
use super::lines::{refused, room_refused};
use super::records::value_fields;
use cell_key_node::KeyNode;
use cell_key_value::FoundValue;
use console::say;
use words::{Refusal, RoomRefusal};

pub fn values_line(answer: Result<u32, RoomRefusal>, out: &[u32]) {
    match answer {
        Ok(count) => {
            say!(" ok {count}");
            buffers::written(out, count as usize);
        }
        Err(refusal) => {
            room_refused(refusal);
            buffers::untouched(out, 0);
        }
    }
}

pub fn lookup_line(answer: Result<FoundValue, Refusal>) {
    match answer {
        Ok(found) => {
            say!(" ok {}", found.position);
            value_fields(found.value);
        }
        Err(refusal) => refused(refusal),
    }
}

// From a key record, which is held to its place.
pub fn values_of(image: &[u8], key: KeyNode, out: &mut [u32]) {
    buffers::prefill_known(out);
    let answer = key_in_place::value_list_of(image, key, out);
    values_line(answer, out);
}

pub fn lookup_of(image: &[u8], key: KeyNode, name: &[u8]) {
    lookup_line(key_in_place::find_value_of(image, key, name));
}
