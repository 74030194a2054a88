// Subkey lists written anew: an `li` list as an allocated `lh` cell, and an `lh` list as an allocated `li` cell. Every function takes any
// list, position, image, base and buffer. All is judged first and written after: a refusal changes no byte of the buffer.
#![tactic(auto)]

ghost use Rattle.std.specs.Prelude.{ℕ, ◌≡◌, ◌+◌, ◌*◌, ◌-◌, ◌≤◌, length};
ghost use Rattle.words.specs.Paper.{told, told_of_room, on_success, verdict_paper};
ghost use Rattle.words.specs.Buffers.{needing};
ghost use Rattle.sub_key_list.specs.Lists.{LH, LI, word_of, entry_size};
ghost use Rattle.cell_key_node.specs.ValueList.{up_to};
ghost use Rattle.name_hash.specs.Hash.{hash_paper};
ghost use Rattle.writing.specs.Writing.{with_bytes, bytes_of};
ghost use Rattle.list_conversion.specs.Cells.{cell_size, header, row_bytes};
ghost use Rattle.list_conversion.specs.Entries.{offset_in, count_of, count_paper, key_hash, judged_of, lh_count, lh_entry, lh_size, li_size};
ghost use Rattle.list_conversion.specs.Answers.{Converted, LhAnswered, LiAnswered};

use cell_key_node::KeyNode;
use sub_key_list::{Kind, SubKeyList};
use words::{Reason, Refusal, RoomRefusal};

// The bytes before a list's entries.
const HEADER: usize = 8;

// An offset plus base that a key record can have is below this.
const ADDRESSES: usize = 4294967296;

// How many entries the list at a position has, where it is of one kind.
fn count_of(list: &[u8], position: usize, kind: Kind) -> Result<u16, Refusal>
    ensures { count_paper result ≡ count_of (word_of kind) list.now position }
{
    let word = kind.word();
    match sub_key_list::read_list(list, position)? {
        SubKeyList::Leaf(leaf) if leaf.kind.word() == word => Ok(leaf.count),
        _ => Err(Refusal {
            reason: Reason::BadSign,
            position,
        }),
    }
}

// Where the key record is that an entry of an `li` list names; the list begins with its size word.
fn place_of(list: &[u8], i: u16, base: u32) -> usize
    ensures { result ≡ offset_in list.now 4 i + base }
{
    let offset = words::u32_at(list, HEADER + 4 * (i as usize));
    let relative = offset as usize;
    relative + base as usize
}

// The hash of the name of the key record at a place. No offset of the record is followed, so that it is read with the base 0.
fn key_hash(image: &[u8], place: usize) -> Result<u32, Refusal>
    ensures { hash_paper result ≡ key_hash image.now place }
{
    if ADDRESSES <= place {
        return Err(Refusal {
            reason: Reason::Outside,
            position: place,
        });
    }
    let key = cell_key_node::read_key_node(image, place, 0)?;
    let name = cell_key_node::key_name(image, place);
    name_hash::name_hash(key.key_node_flag_bits, name)
}

// Whether every entry of an `li` list names a key whose name has a hash: the first that does not refuses.
fn check_keys(list: &[u8], count: u16, image: &[u8], base: u32) -> Result<(), Refusal>
    ensures { verdict_paper result ≡ judged_of image.now base (up_to (offset_in list.now 4) count) }
{
    for i in 0..count {
        let key = place_of(list, i, base);
        key_hash(image, key)?;
    }
    Ok(())
}

// How many entries the `li` list at a position has, where every one of them names a key whose name has a hash.
fn judge_lh(list: &[u8], position: usize, image: &[u8], base: u32) -> Result<u16, Refusal>
    ensures { count_paper result ≡ lh_count list.now position image.now base }
{
    let count = count_of(list, position, Kind::Li)?;
    let entries = words::from(list, position);
    check_keys(entries, count, image, base)?;
    Ok(count)
}

// The entries of a list that is written: its kind, the bytes that an entry takes, and entry i as the number that its bytes are.
trait Row {
    ghost kind: { ℕ };

    ghost size: { ℕ };

    ghost entry: { Self → ℕ → ℕ };

    fn kind(&self) -> u16
        ensures { result ≡ kind };

    fn size(&self) -> u8
        ensures { result ≡ size };

    fn entry(&self, i: u16) -> u64
        ensures { result ≡ entry self.now i };

    ghost sized: { size ≡ entry_size kind };
}

// Those of the `lh` list that an `li` list becomes: each offset as it stands, with the hash of its key's name behind it.
#[derive(Clone, Copy)]
struct Hashed<'a> {
    list: &'a [u8],
    image: &'a [u8],
    base: u32,
}

impl Row for Hashed<'_> {
    ghost kind = { LH };

    ghost size = { 8 };

    ghost entry = { λ s. lh_entry s.image.now s.base s.list.now };

    fn kind(&self) -> u16 {
        Kind::Lh.word()
    }

    fn size(&self) -> u8 {
        8
    }

    fn entry(&self, i: u16) -> u64 {
        let offset = words::u32_at(self.list, HEADER + 4 * (i as usize)) as usize;
        let place = place_of(self.list, i, self.base);
        let hash = key_hash(self.image, place).unwrap_or(0);
        offset as u64 + 4294967296 * (hash as u64)
    }

    ghost sized = { lh_size };
}

// Those of the `li` list that an `lh` list becomes: each offset as it stands.
#[derive(Clone, Copy)]
struct Offsets<'a> {
    list: &'a [u8],
}

impl Row for Offsets<'_> {
    ghost kind = { LI };

    ghost size = { 4 };

    ghost entry = { λ s. offset_in s.list.now 8 };

    fn kind(&self) -> u16 {
        Kind::Li.word()
    }

    fn size(&self) -> u8 {
        4
    }

    fn entry(&self, i: u16) -> u64 {
        words::u32_at(self.list, HEADER + 8 * (i as usize)) as u64
    }

    ghost sized = { li_size };
}

// The bytes of a list's header and entries.
#[tactic(auto, using(sub_key_list::proofs::Cases::entries_fit))]
fn bytes_of(entry: u8, count: u16) -> u32
    ensures { result ≡ 8 + entry * count }
{
    8 + (entry as u32) * (count as u32)
}

// The bytes of the smallest cell for a list: a multiple of 8.
fn cell_size(entry: u8, count: u16) -> u32
    ensures { result ≡ cell_size entry count }
{
    let bytes = bytes_of(entry, count);
    bytes.next_multiple_of(8)
}

// The header of an allocated cell: its size, which is written as a negative number, its kind and its count.
fn put_header(size: u32, kind: u16, count: u16, out: &mut [u8])
    requires le_size { 1 ≤ size }
    requires in_bounds { 8 ≤ length out.old }
    ensures { out.new ≡ with_bytes out.old 0 (header size kind count) }
{
    writing::put_u32(out, 0, size.wrapping_neg());
    writing::put_u16(out, 4, kind);
    writing::put_u16(out, 6, count);
}

// The entries behind the header.
fn put_entries<E: Row>(row: &E, count: u16, out: &mut [u8])
    requires { 8 + E.size * count ≤ length out.old }
    ensures { out.new ≡ with_bytes out.old 8 (row_bytes E.size (up_to (E.entry row.now) count)) }
{
    let size = row.size() as usize;
    for i in 0..count {
        let entry = row.entry(i);
        writing::put_bytes(out, HEADER + size * (i as usize), size, entry);
    }
}

// The rest of a cell behind its entries.
fn put_rest(size: u32, entry: u8, count: u16, out: &mut [u8])
    requires size_in_bounds { size ≤ length out.old }
    requires count_bound { 8 + entry * count ≤ size }
    ensures { out.new ≡ with_bytes out.old (8 + entry * count) (bytes_of (size - (8 + entry * count)) 0) }
{
    let end = bytes_of(entry, count);
    let rest = size - end;
    writing::put_bytes(out, end as usize, rest as usize, 0);
}

// A cell that does not fit.
fn no_room(size: u32) -> RoomRefusal
    ensures { told_of_room result ≡ needing size }
{
    RoomRefusal {
        reason: Reason::NoRoom,
        position: 0,
        places: size as usize,
    }
}

// The cell of a list with these entries, where their number is known.
fn lay<E: Row>(judged: Result<u16, Refusal>, row: &E, out: &mut [u8]) -> Result<u32, RoomRefusal>
    ensures { Converted E.kind (on_success (up_to (E.entry row.now)) (count_paper judged)) out.old result out.new }
{
    let count = judged?;
    let entry = row.size();
    let size = cell_size(entry, count);
    if out.len() < size as usize {
        return Err(no_room(size));
    }
    put_header(size, row.kind(), count, out);
    put_entries(row, count, out);
    put_rest(size, entry, count, out);
    Ok(size)
}

// The `li` list at a position of `list`, written as an allocated `lh` cell into the first bytes of `out`: each hash is that of the key
// record which the entry names in `image`, at the entry's offset plus `base`. The answer is the cell's size.
pub fn write_lh(
    list: &[u8],
    position: usize,
    image: &[u8],
    base: u32,
    out: &mut [u8],
) -> Result<u32, RoomRefusal>
    ensures { LhAnswered list.now position image.now base out.old result out.new }
{
    let judged = judge_lh(list, position, image, base);
    let list = words::from(list, position);
    lay(judged, &Hashed { list, image, base }, out)
}

// The `lh` list at a position of `list`, written as an allocated `li` cell into the first bytes of `out`. The answer is the cell's size.
pub fn write_li(list: &[u8], position: usize, out: &mut [u8]) -> Result<u32, RoomRefusal>
    ensures { LiAnswered list.now position out.old result out.new }
{
    let judged = count_of(list, position, Kind::Lh);
    let list = words::from(list, position);
    lay(judged, &Offsets { list }, out)
}
