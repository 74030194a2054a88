// What a key record leads to, from the record: its subkeys, its value list, a value by its name. A record is taken only with an image in
// which it stands (document 02, order 11); the base is the record's.
#![tactic(auto)]

ghost use Rattle.std.specs.Prelude.{◌≡◌, cond, Ok, Err};
ghost use Rattle.sub_key_walk.specs.Answers.{walk_paper};
ghost use Rattle.cell_key_value.specs.Lookup.{lookup_paper};
ghost use Rattle.key_in_place.specs.Place.{is_in_place};
ghost use Rattle.key_in_place.specs.Answers.{measured_of, strict_measured_of, WalkAnsweredOf, StrictAnsweredOf, ListAnsweredOf, found_of};

use cell_key_node::KeyNode;
use cell_key_value::FoundValue;
use sub_key_walk::{Counts, WalkRefusal};
use words::{Reason, Refusal, RoomRefusal};

// The refusals of a record that does not stand in the image, by what is asked of it.
const NO_WALK: WalkRefusal = WalkRefusal {
    reason: Reason::OtherPlace,
    position: 0,
    lists: 0,
    places: 0,
    entries: 0,
    dropped: 0,
};

const NO_LIST: RoomRefusal = RoomRefusal {
    reason: Reason::OtherPlace,
    position: 0,
    places: 0,
};

const NO_VALUE: Refusal = Refusal {
    reason: Reason::OtherPlace,
    position: 0,
};

// Whether the bytes at a record's position read, with its base, as this same record.
pub fn is_in_place(image: &[u8], key: KeyNode) -> bool
    ensures { result ≡ is_in_place image.now key }
{
    cell_key_node::read_key_node(image, key.position, key.base).is_ok_and(|found| found == key)
}

// A record goes on only if it stands in the image, and is refused before all else if it does not.
fn only_if<E: Drop>(stands: bool, refusal: E) -> Result<(), E>
    ensures { result ≡ cond stands (Ok tt) (Err refusal) }
{
    if stands { Ok(()) } else { Err(refusal) }
}

// The subkeys of a key record: the walk of its list, within a budget of lists, into `out`. A refusal changes no place of it.
pub fn sub_keys_of(
    image: &[u8],
    key: KeyNode,
    budget: u32,
    out: &mut [u32],
) -> Result<Counts, WalkRefusal>
    ensures { WalkAnsweredOf image.now key budget out.old result out.new }
{
    only_if(is_in_place(image, key), NO_WALK)?;
    sub_key_walk::sub_keys(
        image,
        key.base,
        key.number_of_sub_keys,
        key.sub_keys_list_offset_relative,
        budget,
        out,
    )
}

// What that walk counts, with no regard to room: the places that its offsets need among it. Nothing is written.
pub fn sub_key_counts_of(image: &[u8], key: KeyNode, budget: u32) -> Result<Counts, WalkRefusal>
    ensures { walk_paper result ≡ measured_of image.now key budget }
{
    only_if(is_in_place(image, key), NO_WALK)?; // before the budget is looked at
    sub_key_walk::sub_key_counts(
        image,
        key.base,
        key.number_of_sub_keys,
        key.sub_keys_list_offset_relative,
        budget,
    )
}

// The subkeys of a key record with each list read strictly: only what the minor version permits, each list inside an allocated cell of
// its own, and no `ri` list named by an `ri` list.
pub fn strict_sub_keys_of(
    image: &[u8],
    key: KeyNode,
    budget: u32,
    minor: u32,
    out: &mut [u32],
) -> Result<Counts, WalkRefusal>
    ensures { StrictAnsweredOf image.now key budget minor out.old result out.new }
{
    only_if(is_in_place(image, key), NO_WALK)?;
    sub_key_walk::strict_sub_keys(
        image,
        key.base,
        key.number_of_sub_keys,
        key.sub_keys_list_offset_relative,
        budget,
        minor,
        out,
    )
}

// What the strict walk counts, with no regard to room. Nothing is written.
pub fn strict_sub_key_counts_of(
    image: &[u8],
    key: KeyNode,
    budget: u32,
    minor: u32,
) -> Result<Counts, WalkRefusal>
    ensures { walk_paper result ≡ strict_measured_of image.now key budget minor }
{
    only_if(is_in_place(image, key), NO_WALK)?;
    sub_key_walk::strict_sub_key_counts(
        image,
        key.base,
        key.number_of_sub_keys,
        key.sub_keys_list_offset_relative,
        budget,
        minor,
    )
}

// The value list of a key record: the entries as stored into `out`. A refusal changes no place of it.
pub fn value_list_of(image: &[u8], key: KeyNode, out: &mut [u32]) -> Result<u32, RoomRefusal>
    ensures { ListAnsweredOf image.now key out.old result out.new }
{
    only_if(is_in_place(image, key), NO_LIST)?;
    cell_key_node::value_list(
        image,
        key.base,
        key.number_of_key_values,
        key.key_values_list_offset_relative,
        out,
    )
}

// The value of a name in a key record's value list.
pub fn find_value_of(image: &[u8], key: KeyNode, name: &[u8]) -> Result<FoundValue, Refusal>
    ensures { lookup_paper result ≡ found_of image.now key name.now }
{
    only_if(is_in_place(image, key), NO_VALUE)?;
    cell_key_value::find_value(
        image,
        key.base,
        key.number_of_key_values,
        key.key_values_list_offset_relative,
        name,
    )
}
