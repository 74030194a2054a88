// Key records: the record at a position, its name and its slack as parts of the image, and its value list by plain
// numbers. The checks of a record are shared with the value records.
#![tactic(auto)]

ghost use Rattle.std.specs.Prelude.{◌≡◌, ◌+◌, ◌≤◌, ◌++◌, length, drop};
ghost use Rattle.words.specs.Paper.{verdict_paper, fault_number};
ghost use Rattle.words.specs.Parts.{Part};
ghost use Rattle.cell_key_node.specs.Records.{size_of, cell_fault, fault_at, record_at};
ghost use Rattle.cell_key_node.specs.Key.{key_of, key_at, key_paper, key_name, key_name_at, key_slack, key_slack_at};
ghost use Rattle.cell_key_node.specs.ValueList.{place_of, place_paper, up_to, entry_of, ListAnswered};

use sub_key_walk::COUNT_LIMIT;
use words::{Reason, Refusal, RoomRefusal};

// How a record is laid out: the bytes of its fixed part, its signature, and the place of its name's length.
#[derive(Clone, Copy)]
struct Layout {
    fixed: usize,
    signature: u16,
    name_at: usize,
}

// Of a key record: 80 bytes, "nk", and its name's length at 76.
const KEY: Layout = Layout {
    fixed: 80,
    signature: 0x6B6E,
    name_at: 76,
};

// A key record: where it stands in the image, and the base that offsets are relative to; then its numbers, in the order in which they
// stand. `allocated` is the sign of its size.
#[derive(Clone, Copy, PartialEq, Eq)]
pub struct KeyNode {
    pub position: usize,
    pub base: u32,
    pub size: i32,
    pub allocated: bool,
    pub key_node_flag_bits: u16,
    pub last_key_written_time: u64,
    pub access_flag_bits: u32,
    pub parent_key_offset_relative: i32,
    pub number_of_sub_keys: u32,
    pub number_of_volatile_sub_keys: u32,
    pub sub_keys_list_offset_relative: u32,
    pub volatile_sub_keys_list_offset_relative: i32,
    pub number_of_key_values: u32,
    pub key_values_list_offset_relative: i32,
    pub security_key_offset_relative: u32,
    pub class_name_offset_relative: i32,
    pub largest_sub_key_name_size: u32,
    pub largest_sub_key_class_name_size: u32,
    pub largest_value_name_size: u32,
    pub largest_value_data_size: u32,
    pub work_var: u32,
    pub key_name_size: u16,
    pub class_name_size: u16,
}

// The magnitude of the size word that a cell begins with.
#[tactic(auto, using(words::proofs::Signed::held), unfolding(crate::specs::Records::size_of))]
fn size_of(cell: &[u8]) -> u32
    ensures { result ≡ size_of cell.now }
{
    words::magnitude(words::i32_at(cell, 0))
}

// The first check that a cell fails, where it fails one.
#[tactic(auto, unfolding(crate::specs::Records::cell_fault))]
fn cell_fault(cell: &[u8], layout: Layout) -> Option<Reason>
    ensures { fault_number result ≡ cell_fault cell.now layout.fixed layout.signature layout.name_at }
{
    if cell.len() < layout.fixed {
        return Some(Reason::Short);
    }
    let size = size_of(cell) as usize;
    if size < layout.fixed || cell.len() < size {
        return Some(Reason::BadSize);
    }
    if words::u16_at(cell, 4) != layout.signature {
        return Some(Reason::BadSign);
    }
    let name = words::u16_at(cell, layout.name_at) as usize;
    if size < layout.fixed + name {
        return Some(Reason::BadName);
    }
    None
}

// The first check that the record at a position fails, where it fails one.
#[tactic(auto, unfolding(crate::specs::Records::fault_at))]
fn record_fault(image: &[u8], position: usize, layout: Layout) -> Option<Reason>
    ensures { fault_number result ≡ fault_at image.now position layout.fixed layout.signature layout.name_at }
{
    if image.len() < position {
        return Some(Reason::Outside);
    }
    cell_fault(words::from(image, position), layout)
}

// The checks of the record at a position, of a layout: the first that fails refuses it, at its position.
#[tactic(auto, using(words::proofs::Papers::fault_refused, words::proofs::Papers::checked_good), unfolding(crate::specs::Records::record_at))]
fn check(image: &[u8], position: usize, layout: Layout) -> Result<(), Refusal>
    ensures { verdict_paper result ≡ record_at image.now position layout.fixed layout.signature layout.name_at }
{
    match record_fault(image, position, layout) {
        None => Ok(()),
        Some(reason) => Err(Refusal { reason, position }),
    }
}

// The same for records of both kinds: with so large a fixed part, a signature, and the length of the name at a place.
pub fn check_record(
    image: &[u8],
    position: usize,
    fixed: usize,
    signature: u16,
    name_at: usize,
) -> Result<(), Refusal>
    ensures { verdict_paper result ≡ record_at image.now position fixed signature name_at }
{
    let layout = Layout {
        fixed,
        signature,
        name_at,
    };
    check(image, position, layout)
}

// The key record of a cell that stands at a position, with a base.
#[tactic(auto, using(words::proofs::Signed::held), unfolding(crate::specs::Key::key_of))]
fn key_in(cell: &[u8], position: usize, base: u32) -> KeyNode
    ensures { result ≡ key_of position base cell.now }
{
    let size = words::i32_at(cell, 0);
    KeyNode {
        position,
        base,
        size,
        allocated: size < 0,
        key_node_flag_bits: words::u16_at(cell, 6),
        last_key_written_time: words::u64_at(cell, 8),
        access_flag_bits: words::u32_at(cell, 16),
        parent_key_offset_relative: words::i32_at(cell, 20),
        number_of_sub_keys: words::u32_at(cell, 24),
        number_of_volatile_sub_keys: words::u32_at(cell, 28),
        sub_keys_list_offset_relative: words::u32_at(cell, 32),
        volatile_sub_keys_list_offset_relative: words::i32_at(cell, 36),
        number_of_key_values: words::u32_at(cell, 40),
        key_values_list_offset_relative: words::i32_at(cell, 44),
        security_key_offset_relative: words::u32_at(cell, 48),
        class_name_offset_relative: words::i32_at(cell, 52),
        largest_sub_key_name_size: words::u32_at(cell, 56),
        largest_sub_key_class_name_size: words::u32_at(cell, 60),
        largest_value_name_size: words::u32_at(cell, 64),
        largest_value_data_size: words::u32_at(cell, 68),
        work_var: words::u32_at(cell, 72),
        key_name_size: words::u16_at(cell, 76),
        class_name_size: words::u16_at(cell, 78),
    }
}

// The key record at a position, which with the base it keeps.
#[tactic(auto, using(words::proofs::Papers::handed_on, crate::proofs::Records::refused_alike, words::proofs::Papers::checked_good, crate::proofs::Records::passed), unfolding(crate::specs::Key::key_at, crate::specs::Key::key_fault))]
pub fn read_key_node(image: &[u8], position: usize, base: u32) -> Result<KeyNode, Refusal>
    ensures { key_paper result ≡ key_at image.now position base }
{
    check(image, position, KEY)?;
    let cell = words::from(image, position);
    Ok(key_in(cell, position, base))
}

// The name of the key record at a position, as a part of the image; empty where the record is refused.
pub fn key_name(image: &[u8], position: usize) -> &[u8]
    ensures { Part image.entry result (key_name_at image.now position) (key_name image.now position) }
{
    let Ok(()) = check(image, position, KEY) else {
        return &image[0..0];
    };
    let cell = words::from(image, position);
    let size = words::u16_at(cell, KEY.name_at) as usize;
    words::part(cell, KEY.fixed, size)
}

// What lies between the name's end and the cell's end, as a part of the image; empty where the record is refused.
pub fn key_slack(image: &[u8], position: usize) -> &[u8]
    ensures { Part image.entry result (key_slack_at image.now position) (key_slack image.now position) }
{
    let Ok(()) = check(image, position, KEY) else {
        return &image[0..0];
    };
    let cell = words::from(image, position);
    let size = size_of(cell) as usize;
    let whole = words::part(cell, 0, size);
    let name = words::u16_at(cell, KEY.name_at) as usize;
    let end = KEY.fixed + name;
    words::from(whole, end)
}

// Where the value list of a key record stands, its size word and all its entries within the image; a count of 0 has no list.
#[tactic(auto, unfolding(crate::specs::ValueList::place_of))]
pub fn value_list_place(
    image: &[u8],
    base: u32,
    count: u32,
    offset: i32,
) -> Result<Option<usize>, Refusal>
    ensures { place_paper result ≡ place_of image.now base count offset }
{
    if count == 0 {
        return Ok(None);
    }
    let relative = words::above_zero(offset) as usize;
    if relative == 0 || image.len() <= relative {
        return Err(Refusal {
            reason: Reason::NoList,
            position: 0,
        });
    }
    if COUNT_LIMIT < count {
        return Err(Refusal {
            reason: Reason::TooMany,
            position: 0,
        });
    }
    let place = relative + base as usize;
    if image.len() < place {
        return Err(Refusal {
            reason: Reason::Outside,
            position: place,
        });
    }
    let end = place + 4 + 4 * (count as usize);
    if image.len() < end {
        return Err(Refusal {
            reason: Reason::CutShort,
            position: place,
        });
    }
    Ok(Some(place))
}

// Entry `i` of a list, as stored.
#[tactic(auto, unfolding(crate::specs::ValueList::entry_of))]
pub fn entry(list: &[u8], i: u32) -> u32
    ensures { result ≡ entry_of list.now i }
{
    words::u32_at(list, 4 + 4 * (i as usize))
}

// The position that entry `i` of a list tells, which is relative to a base.
pub fn entry_position(list: &[u8], base: u32, i: u32) -> usize
    ensures { result ≡ entry_of list.now i + base }
{
    let relative = entry(list, i) as usize;
    relative + base as usize
}

// The entries of a list, as stored, into the first places of `out`.
#[tactic(auto, using(crate::proofs::Fill::filled_none))]
fn fill_entries(list: &[u8], count: u32, out: &mut [u32])
    requires { count ≤ length out.old }
    ensures { out.new ≡ up_to (entry_of list.now) count ++ drop count out.old }
{
    for i in 0..count {
        out[i as usize] = entry(list, i);
    }
}

// The value list of a key record, given by its numbers: the entries as stored into `out`. A refusal changes no place of it.
#[tactic(auto, using(words::proofs::Signed::back, crate::proofs::ValueLists::no_values, crate::proofs::ValueLists::no_place, crate::proofs::ValueLists::no_room))]
pub fn value_list(
    image: &[u8],
    base: u32,
    count: u32,
    offset: i32,
    out: &mut [u32],
) -> Result<u32, RoomRefusal>
    ensures { ListAnswered image.now base count offset out.old result out.new }
{
    let Some(position) = value_list_place(image, base, count, offset)? else {
        return Ok(0);
    };
    let places = count as usize;
    if out.len() < places {
        return Err(RoomRefusal {
            reason: Reason::NoRoom,
            position: 0,
            places,
        });
    }
    fill_entries(words::from(image, position), count, out);
    Ok(count)
}
