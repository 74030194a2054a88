// A value's data, whole: in its record's offset field, in a cell, or in the segments of a big data cell. All cells are judged before
// a byte is copied.
#![tactic(auto)]

ghost use Rattle.std.specs.Prelude.{◌+◌, ◌≤◌, ◌≡◌, length};
ghost use Rattle.words.specs.Paper.{verdict_paper};
ghost use Rattle.writing.specs.Writing.{with_bytes};
ghost use Rattle.cell_key_node.specs.ValueList.{up_to, entry_of};
ghost use Rattle.value_data.specs.Pieces.{piece, bytes_in, joined, holds, judged, segments};
ghost use Rattle.value_data.specs.Data.{segments_needed, big_head, big_at, from_list, in_segments, is_big, source_of};
ghost use Rattle.value_data.specs.Answers.{bytes_from, source_at, find_paper, DataAnswered};

use cell::Fit;
use cell_key_value::KeyValue;
use words::{Reason, Refusal, RoomRefusal};

// The bit of a record's data size that says that the data is in the offset field.
const TOP_BIT: u32 = 2147483648;

// The bytes of a record's offset field, and of a cell's size word.
const FIELD: u32 = 4;

const SIZE_WORD: usize = 4;

// The bytes of a segment, and of a big data cell.
const SEGMENT: u32 = 16344;

const BIG_DATA: usize = 12;

// Where a value's data is: nowhere, for a size of 0; in the record's offset field; in the cell at a position; in segments, the cell
// of whose list is at a position.
#[derive(Clone, Copy)]
enum DataPlace {
    Nothing,
    Field,
    Cell(usize),
    Segments(usize),
}

// The refusal by BAD DATA, which has no position.
const BAD_DATA: Refusal = Refusal {
    reason: Reason::BadData,
    position: 0,
};

// Whether the cell at a position lies in the image and holds so many bytes behind its size word.
#[tactic(auto, using(words::proofs::Papers::handed_on, crate::proofs::Pieces::cell_refused))]
fn check_cell(image: &[u8], position: usize, bytes: u32) -> Result<(), Refusal>
    ensures { verdict_paper result ≡ holds image.now (piece position bytes) }
{
    let least = SIZE_WORD + bytes as usize;
    match cell::cell_at(image, position, least)? {
        Fit::Held(_) => Ok(()),
        Fit::TooSmall(_) => Err(BAD_DATA),
    }
}

// The cells of the segments, in the order of their list.
fn check_segments(
    image: &[u8],
    base: u32,
    list: &[u8],
    count: u32,
    size: u32,
) -> Result<(), Refusal>
    ensures { verdict_paper result ≡ judged image.now (segments base (up_to (entry_of list.now) count) size) }
{
    let mut left = size;
    for i in 0..count {
        let position = cell_key_node::entry_position(list, base, i);
        let bytes = left.min(SEGMENT);
        check_cell(image, position, bytes)?;
        left -= bytes;
    }
    Ok(())
}

// The least number of segments that hold so many bytes.
#[tactic(auto, using(crate::proofs::Sizes::needed_ceil))]
fn segments_needed(size: u32) -> u32
    ensures { result ≡ segments_needed size }
{
    size.div_ceil(SEGMENT)
}

// Whether the bytes from a position on are those of a big data cell of so many segments, where the cell is large enough for one or
// is not (a flag in the definition `big_head` too: its letters are looked at before its size is refused).
#[tactic(auto, unfolding(crate::specs::Data::big_head))]
fn check_head(image: &[u8], position: usize, count: u32, large: bool) -> Result<(), Refusal>
    ensures { verdict_paper result ≡ big_head image.now position count large }
{
    let big = words::from(image, position);
    if big.len() < BIG_DATA {
        return Err(Refusal {
            reason: Reason::CutShort,
            position,
        });
    }
    if !cell_big_data::is_big_data_block(big) {
        return Err(Refusal {
            reason: Reason::BadSign,
            position,
        });
    }
    let told = words::u16_at(big, 6) as u32;
    if !large || told != count {
        return Err(BAD_DATA);
    }
    Ok(())
}

// Whether the cell at a position is a big data cell of so many segments.
#[tactic(auto, using(words::proofs::Papers::handed_on, crate::proofs::Big::big_no_cell))]
fn check_big(image: &[u8], position: usize, count: u32) -> Result<(), Refusal>
    ensures { verdict_paper result ≡ big_at image.now position count }
{
    match cell::cell_at(image, position, BIG_DATA)? {
        Fit::Held(_) => check_head(image, position, count, true),
        Fit::TooSmall(_) => check_head(image, position, count, false),
    }
}

// The data in segments, by their list's cell at a position: that cell, and theirs.
fn find_listed(
    image: &[u8],
    base: u32,
    place: usize,
    count: u32,
    size: u32,
) -> Result<DataPlace, Refusal>
    requires { count ≡ segments_needed size }
    ensures { find_paper image.now base size result ≡ from_list image.now base place size }
{
    let entries = 4 * count;
    check_cell(image, place, entries)?;
    let list = words::from(image, place);
    check_segments(image, base, list, count, size)?;
    Ok(DataPlace::Segments(place))
}

// The data in segments, by the big data cell at a position: that cell, the cell of their list, and theirs.
#[tactic(auto, using(words::proofs::Papers::handed_on, crate::proofs::Places::big_refused, crate::proofs::Places::big_whole))]
fn find_segments(image: &[u8], base: u32, position: usize, size: u32) -> Result<DataPlace, Refusal>
    ensures { find_paper image.now base size result ≡ in_segments image.now base position size }
{
    let count = segments_needed(size);
    check_big(image, position, count)?;
    let big = words::from(image, position);
    let relative = words::u32_at(big, 8) as usize;
    let place = relative + base as usize;
    find_listed(image, base, place, count, size)
}

// Whether a value's data is in segments: by the minor version of the hive, and its size.
#[tactic(auto, unfolding(crate::specs::Data::is_big))]
fn is_big(minor: u32, size: u32) -> bool
    ensures { result ≡ is_big minor size }
{
    3 < minor && SEGMENT < size
}

// Where a value's data is, with every cell of it judged: by whether it is in the offset field, its size, and its offset.
#[tactic(auto, unfolding(crate::specs::Data::source_of))]
fn find_data(
    image: &[u8],
    base: u32,
    minor: u32,
    resident: bool,
    size: u32,
    offset: u32,
) -> Result<DataPlace, Refusal>
    ensures { find_paper image.now base size result ≡ source_of image.now base minor resident size offset }
{
    if resident {
        if FIELD < size {
            return Err(BAD_DATA);
        }
        return Ok(DataPlace::Field);
    }
    if size == 0 {
        return Ok(DataPlace::Nothing);
    }
    let relative = offset as usize;
    let position = relative + base as usize;
    if is_big(minor, size) {
        return find_segments(image, base, position, size);
    }
    check_cell(image, position, size)?;
    Ok(DataPlace::Cell(position))
}

// Bytes into a buffer, from a place on.
#[tactic(auto, using(crate::proofs::Copies::part_written))]
fn copy_bytes(bytes: &[u8], out: &mut [u8], at: usize)
    requires { at + length bytes.now ≤ length out.old }
    ensures { out.new ≡ with_bytes out.old at bytes.now }
{
    out[at..at + bytes.len()].copy_from_slice(bytes);
}

// The bytes of a cell behind its size word, as a part of the image: so many of them, or as many as are there.
fn cell_bytes(image: &[u8], position: usize, bytes: u32) -> &[u8]
    ensures { result.now ≡ bytes_in image.now (piece position bytes) }
{
    let cell = words::from(image, position);
    words::part(cell, SIZE_WORD, bytes as usize)
}

// The bytes of the segments into a buffer, one segment behind another.
#[tactic(auto, using(crate::proofs::Copies::filling_start, crate::proofs::Copies::filling_done))]
fn copy_segments(image: &[u8], base: u32, list: &[u8], count: u32, size: u32, out: &mut [u8])
    requires { size ≤ length out.old }
    ensures { out.new ≡ with_bytes out.old 0 (joined image.now (segments base (up_to (entry_of list.now) count) size)) }
{
    let mut left = size;
    let mut at: usize = 0;
    for i in 0..count {
        let position = cell_key_node::entry_position(list, base, i);
        let bytes = left.min(SEGMENT);
        let segment = cell_bytes(image, position, bytes);
        copy_bytes(segment, out, at);
        at += segment.len();
        left -= bytes;
    }
}

// A value's data into a buffer, from where it is.
fn copy_data(image: &[u8], base: u32, size: u32, offset: u32, place: DataPlace, out: &mut [u8])
    requires { size ≤ length out.old }
    ensures { out.new ≡ with_bytes out.old 0 (bytes_from image.now size offset (source_at image.now base size place)) }
{
    match place {
        DataPlace::Nothing => {}
        DataPlace::Field => {
            writing::put_bytes(out, 0, size as usize, offset as u64);
        }
        DataPlace::Cell(position) => {
            let bytes = cell_bytes(image, position, size);
            copy_bytes(bytes, out, 0);
        }
        DataPlace::Segments(position) => {
            let count = segments_needed(size);
            let list = words::from(image, position);
            copy_segments(image, base, list, count, size, out);
        }
    }
}

// The data of a value, given by its record's numbers, into the first places of `out`. A refusal changes no place of it.
#[tactic(auto, using(crate::proofs::Answers::data_refused, crate::proofs::Answers::data_full), unfolding(crate::specs::Answers::data_of))]
pub fn value_data(
    image: &[u8],
    base: u32,
    minor: u32,
    size: u32,
    offset: u32,
    out: &mut [u8],
) -> Result<u32, RoomRefusal>
    ensures { DataAnswered image.now base minor size offset out.old result out.new }
{
    let resident = TOP_BIT <= size;
    let bytes = size % TOP_BIT;
    let place = find_data(image, base, minor, resident, bytes, offset)?;
    let places = bytes as usize;
    if out.len() < places {
        return Err(RoomRefusal {
            reason: Reason::NoRoom,
            position: 0,
            places,
        });
    }
    copy_data(image, base, bytes, offset, place, out);
    Ok(bytes)
}

// The data of a value, from its record.
pub fn value_data_of(
    image: &[u8],
    base: u32,
    minor: u32,
    value: KeyValue,
    out: &mut [u8],
) -> Result<u32, RoomRefusal>
    ensures { DataAnswered image.now base minor value.data_size_raw value.data_offset_relative out.old result out.new }
{
    let size = value.data_size_raw;
    let offset = value.data_offset_relative;
    value_data(image, base, minor, size, offset, out)
}
