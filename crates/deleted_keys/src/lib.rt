// Keys that were deleted: the image positions of the free cells of the bins that read as key records (document 02, order 4). The
// bins are gone through by the reader of `cell_reader` alone, once to judge and count and once to write.
#![tactic(auto)]

ghost use Rattle.std.specs.Prelude.{◌≡◌, ◌+◌, ◌^◌, ◌≤◌, ◌<◌, length};
ghost use Rattle.deleted_keys.specs.Deleted.{is_deleted, DeletedAnswered};
ghost use Rattle.deleted_keys.specs.Scan.{Noted, Scanned};

use hive_bin::Spot;
use words::{Reason, RoomRefusal};

// Whether the cell at a position, with its size word, is free and reads as a key record. No offset of the record is followed, so that it is
// read with the base 0.
fn is_deleted(image: &[u8], size: i32, position: usize) -> bool
    ensures { result ≡ is_deleted image.now (record { place = position; size = size }) }
{
    0 <= size && cell_key_node::read_key_node(image, position, 0).is_ok()
}

// A position that is listed goes into place `n`, where that is one of the first `room`: the first pass writes nothing, with a `room` of 0,
// into the buffer that the second one fills, so that a slice says no more. Tells how many are listed then.
fn note(out: &mut [u64], n: usize, room: usize, listed: bool, position: usize) -> usize
    requires { (room ≤ length out.old) × (n + 1 < 2 ^ 64) }
    ensures { Noted n room listed position out.old result out.new }
{
    if !listed {
        return n;
    }
    if n < room {
        out[n] = position as u64;
    }
    n + 1
}

// One pass over bins that stand `base` bytes behind the start of the image: the keys counted, and written while there is room.
fn scan(
    image: &[u8],
    base: usize,
    bins: &[u8],
    room: usize,
    out: &mut [u64],
) -> Result<usize, RoomRefusal>
    requires { (base + length bins.now ≤ length image.now) × (room ≤ length out.old) }
    ensures { Scanned image.now base bins.now room out.old result out.new }
{
    let mut spot = Spot { bin: 0, place: 0 };
    let mut n = 0;
    loop {
        match cell_reader::tell(bins, spot) {
            Ok(Some(cell)) => {
                let position = base + cell.place;
                let listed = is_deleted(image, cell.size, position);
                n = note(out, n, room, listed, position);
                spot = cell.next;
            }
            Ok(None) => return Ok(n),
            Err(fault) => {
                return Err(RoomRefusal {
                    reason: fault.reason,
                    position: base + fault.position,
                    places: 0,
                });
            }
        }
    }
}

// The positions of the deleted keys of an image, whose bins are `size` bytes from `base` on, into `out`. A refusal changes no place
// of it.
pub fn deleted_keys(
    image: &[u8],
    base: u32,
    size: u32,
    out: &mut [u64],
) -> Result<usize, RoomRefusal>
    ensures { DeletedAnswered image.now base size out.old result out.new }
{
    let start = base as usize;
    let bytes = size as usize;
    if image.len() < start + bytes {
        return Err(RoomRefusal {
            reason: Reason::CutShort,
            position: start,
            places: 0,
        });
    }
    let bins = words::part(image, start, bytes);
    let n = scan(image, start, bins, 0, out)?;
    if out.len() < n {
        return Err(RoomRefusal {
            reason: Reason::NoRoom,
            position: 0,
            places: n,
        });
    }
    scan(image, start, bins, n, out)
}
