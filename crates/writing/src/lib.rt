// Numbers written into a lent buffer of bytes, the lowest byte first. Every function takes any buffer and any place: all bytes are
// written, or none is, and the answer says which.
#![tactic(auto)]

ghost use Rattle.std.specs.Prelude.{◌≡◌, ◌+◌, leb};
ghost use Rattle.writing.specs.Writing.{PutAt};

// Whether `n` bytes fit from a place on, where there are `room` of them.
fn has_room(room: usize, at: usize, n: usize) -> bool
    ensures { result ≡ leb (at + n) room }
{
    at <= room && n <= room - at
}

// `n` bytes of a number from a place on, the lowest first: whether they all fit. Where they do not, none is written.
pub fn put_bytes(out: &mut [u8], at: usize, n: usize, x: u64) -> bool
    ensures { PutAt n x at out.old result out.new }
{
    if !has_room(out.len(), at, n) {
        return false;
    }
    let mut rest = x;
    for i in 0..n {
        out[at + i] = (rest % 256) as u8;
        rest /= 256;
    }
    true
}

// A 16-bit number from a place on, the lowest byte first: whether both bytes fit. Where they do not, none is written.
pub fn put_u16(out: &mut [u8], at: usize, x: u16) -> bool
    ensures { PutAt 2 x at out.old result out.new }
{
    put_bytes(out, at, 2, x as u64)
}

// A 32-bit number in the same way.
pub fn put_u32(out: &mut [u8], at: usize, x: u32) -> bool
    ensures { PutAt 4 x at out.old result out.new }
{
    put_bytes(out, at, 4, x as u64)
}

// A 64-bit number in the same way.
pub fn put_u64(out: &mut [u8], at: usize, x: u64) -> bool
    ensures { PutAt 8 x at out.old result out.new }
{
    put_bytes(out, at, 8, x)
}
