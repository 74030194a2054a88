// Value records: the record at a position, its name as a part of the image, and the lookup of a value by its name.
#![tactic(auto)]

ghost use Rattle.std.specs.Prelude.{◌≡◌};
ghost use Rattle.words.specs.Paper.{verdict_paper};
ghost use Rattle.words.specs.Parts.{Part};
ghost use Rattle.cell_key_node.specs.Records.{record_at};
ghost use Rattle.cell_key_node.specs.ValueList.{up_to, entry_of};
ghost use Rattle.cell_key_value.specs.Value.{value_of, value_at, value_paper, value_name, value_name_at};
ghost use Rattle.cell_key_value.specs.Text.{same_text, matches_of};
ghost use Rattle.cell_key_value.specs.Lookup.{look_through, lookup_of, lookup_paper};

use words::{Reason, Refusal};

// The fixed part of a value record, its signature "vk", and the place of its name's length.
const FIXED: usize = 24;

const SIGNATURE: u16 = 0x6B76;

const NAME_SIZE_AT: usize = 6;

// The refusal of a lookup that finds nothing.
const NOT_FOUND: Refusal = Refusal {
    reason: Reason::NotFound,
    position: 0,
};

// A value record's numbers, in the order in which they stand; `allocated` is the sign of its size.
#[derive(Clone, Copy)]
pub struct KeyValue {
    pub size: i32,
    pub allocated: bool,
    pub value_name_size: u16,
    pub data_size_raw: u32,
    pub data_offset_relative: u32,
    pub data_type_raw: u32,
    pub flags_raw: u16,
}

// A value record that was looked for, and its position.
#[derive(Clone, Copy)]
pub struct FoundValue {
    pub value: KeyValue,
    pub position: usize,
}

// The numbers of a value record's cell.
#[tactic(auto, using(words::proofs::Signed::held), unfolding(crate::specs::Value::value_of))]
fn value_in(cell: &[u8]) -> KeyValue
    ensures { result ≡ value_of cell.now }
{
    let size = words::i32_at(cell, 0);
    KeyValue {
        size,
        allocated: size < 0,
        value_name_size: words::u16_at(cell, 6),
        data_size_raw: words::u32_at(cell, 8),
        data_offset_relative: words::u32_at(cell, 12),
        data_type_raw: words::u32_at(cell, 16),
        flags_raw: words::u16_at(cell, 20),
    }
}

// The checks of the value record at a position: the first that fails refuses it.
fn check(image: &[u8], position: usize) -> Result<(), Refusal>
    ensures { verdict_paper result ≡ record_at image.now position 24 0x6B76 6 }
{
    cell_key_node::check_record(image, position, FIXED, SIGNATURE, NAME_SIZE_AT)
}

// The value record at a position.
#[tactic(auto, using(words::proofs::Papers::handed_on, cell_key_node::proofs::Records::refused_alike, words::proofs::Papers::checked_good, cell_key_node::proofs::Records::passed), unfolding(crate::specs::Value::value_at, crate::specs::Value::value_fault))]
pub fn read_key_value(image: &[u8], position: usize) -> Result<KeyValue, Refusal>
    ensures { value_paper result ≡ value_at image.now position }
{
    check(image, position)?;
    Ok(value_in(words::from(image, position)))
}

// The name of the value record at a position, as a part of the image; empty where the record is refused.
pub fn value_name(image: &[u8], position: usize) -> &[u8]
    ensures { Part image.entry result (value_name_at image.now position) (value_name image.now position) }
{
    let Ok(()) = check(image, position) else {
        return &image[0..0];
    };
    let cell = words::from(image, position);
    let size = words::u16_at(cell, NAME_SIZE_AT) as usize;
    words::part(cell, FIXED, size)
}

// Whether two texts are equal in lower case: the letters of ASCII alone have one.
fn same_text(a: &[u8], b: &[u8]) -> bool
    ensures { result ≡ same_text a.now b.now }
{
    a.eq_ignore_ascii_case(b)
}

// Whether a stored name, given with its record's flags, is the name that is looked for.
#[tactic(auto, unfolding(crate::specs::Text::matches_of))]
fn name_matches(flags: u16, stored: &[u8], name: &[u8]) -> bool
    ensures { result ≡ matches_of flags stored.now name.now }
{
    if stored.is_empty() && name.is_empty() {
        return true;
    }
    flags % 2 == 1 && same_text(stored, name)
}

// The first record of a list that has the name, or that cannot be read.
#[tactic(auto, using(words::proofs::Papers::handed_on, crate::proofs::Lookups::unreadable, crate::proofs::Lookups::none_left))]
fn find_in(
    image: &[u8],
    list: &[u8],
    base: u32,
    count: u32,
    name: &[u8],
) -> Result<FoundValue, Refusal>
    ensures { lookup_paper result ≡ look_through image.now base name.now (up_to (entry_of list.now) count) }
{
    for i in 0..count {
        let position = cell_key_node::entry_position(list, base, i);
        let value = read_key_value(image, position)?;
        let stored = value_name(image, position);
        if name_matches(value.flags_raw, stored, name) {
            return Ok(FoundValue { value, position });
        }
    }
    Err(NOT_FOUND)
}

// The value of a name in a key record's value list, given by the record's numbers.
#[tactic(auto, using(words::proofs::Signed::back, words::proofs::Papers::handed_on, crate::proofs::Lookups::sought_nowhere, crate::proofs::Lookups::sought_at, crate::proofs::Lookups::sought_refused))]
pub fn find_value(
    image: &[u8],
    base: u32,
    count: u32,
    offset: i32,
    name: &[u8],
) -> Result<FoundValue, Refusal>
    ensures { lookup_paper result ≡ lookup_of image.now base count offset name.now }
{
    let Some(place) = cell_key_node::value_list_place(image, base, count, offset)? else {
        return Err(NOT_FOUND);
    };
    find_in(image, words::from(image, place), base, count, name)
}
