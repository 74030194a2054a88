// Words read out of a slice, and the refusals: their numbers, and what one tells. Every function takes any slice and any position: a
// byte past the end counts as 0, so that nothing above this crate has an index to prove.
#![tactic(auto)]

ghost use Rattle.std.specs.Prelude.{◌≡◌, ◌+◌, ◌-◌, ◌*◌, length, take, drop, nat_abs};
ghost use Rattle.words.specs.Refusals.{numbers};
ghost use Rattle.words.specs.Paper.{number_of};
ghost use Rattle.words.specs.Parts.{Part, start_of};
ghost use Rattle.words.specs.Words.{byte_at, word16, word32, word64, signed, above_zero};

// Document 01's table of refusals, and what document 02 adds to it, by name: each is the number that it stands beside.
#[derive(Clone, Copy, PartialEq, Eq)]
pub enum Reason {
    Short = 1,
    Outside = 2,
    BadSize = 3,
    BadSign = 4,
    BadName = 5,
    NoList = 6,
    TooMany = 7,
    CutShort = 8,
    NoRoom = 9,
    BadBin = 10,
    BadCell = 11,
    TooLarge = 12,
    BadBudget = 13,
    TooDeep = 14,
    OutOfSteps = 15,
    NotFound = 16,
    BadData = 17,
    PastEnd = 18,
    AlreadyIn = 19,
    NotPermitted = 20,
    OtherPlace = 21,
    BadRecord = 22,
    NotTheList = 23,
}

impl Reason {
    // The number in the table.
    pub fn number(self) -> u32
        ensures { result ≡ number_of self }
    {
        self as u32
    }
}

// The table whole: each constant is the number that the definitions have under its name.
fn refusal_numbers() -> [u32; 21]
    ensures { result ≡ numbers }
{
    [
        Reason::Short as u32,
        Reason::Outside as u32,
        Reason::BadSize as u32,
        Reason::BadSign as u32,
        Reason::BadName as u32,
        Reason::NoList as u32,
        Reason::TooMany as u32,
        Reason::CutShort as u32,
        Reason::NoRoom as u32,
        Reason::BadBin as u32,
        Reason::BadCell as u32,
        Reason::TooLarge as u32,
        Reason::BadBudget as u32,
        Reason::TooDeep as u32,
        Reason::OutOfSteps as u32,
        Reason::NotFound as u32,
        Reason::BadData as u32,
        Reason::PastEnd as u32,
        Reason::AlreadyIn as u32,
        Reason::NotPermitted as u32,
        Reason::OtherPlace as u32,
    ]
}

// A refusal: its number in the table, and the position at fault, counted from the start of the image.
#[derive(Clone, Copy)]
pub struct Refusal {
    pub reason: Reason,
    pub position: usize,
}

// A refusal of what is written into a lent buffer: also, of NO ROOM, the places needed.
#[derive(Clone, Copy)]
pub struct RoomRefusal {
    pub reason: Reason,
    pub position: usize,
    pub places: usize,
}

// What is refused in reading alone needs no places.
impl From<Refusal> for RoomRefusal {
    ghost from_gives = { λ f g. g ≡ record { reason = f.reason; position = f.position; places = 0 } };

    fn from(fault: Refusal) -> RoomRefusal {
        RoomRefusal {
            reason: fault.reason,
            position: fault.position,
            places: 0,
        }
    }
}

// The number of two bytes, of four and of eight, the lowest first. Two and four are public, for what reads bytes by plain indexes
// behind a check that has been made.
pub fn join2(a: u8, b: u8) -> u16
    ensures { result ≡ a + 256 * b }
{
    u16::from_le_bytes([a, b])
}

pub fn join4(a: u8, b: u8, c: u8, d: u8) -> u32
    ensures { result ≡ a + 256 * b + 65536 * c + 16777216 * d }
{
    u32::from_le_bytes([a, b, c, d])
}

fn join8(low: u32, high: u32) -> u64
    ensures { result ≡ low + 4294967296 * high }
{
    (low as u64) + 4294967296 * (high as u64)
}

// The byte at a position.
pub fn byte_at(s: &[u8], at: usize) -> u8
    ensures { result ≡ byte_at s.now at }
{
    s.get(at).copied().unwrap_or(0)
}

// The 16-bit word at a position.
pub fn u16_at(s: &[u8], at: usize) -> u16
    ensures { result ≡ word16 s.now at }
{
    if at < s.len().saturating_sub(1) {
        return join2(s[at], s[at + 1]);
    }
    join2(byte_at(s, at), 0)
}

// The 32-bit word at a position. One test and four plain loads, which the compiler makes one, where all of it is there.
pub fn u32_at(s: &[u8], at: usize) -> u32
    ensures { result ≡ word32 s.now at }
{
    if at < s.len().saturating_sub(3) {
        return join4(s[at], s[at + 1], s[at + 2], s[at + 3]);
    }
    if at < s.len() {
        let low = u16_at(s, at);
        let high = u16_at(s, at + 2);
        return (low as u32) + 65536 * (high as u32);
    }
    0
}

// The 64-bit word at a position.
pub fn u64_at(s: &[u8], at: usize) -> u64
    ensures { result ≡ word64 s.now at }
{
    if at < s.len().saturating_sub(7) {
        let low = join4(s[at], s[at + 1], s[at + 2], s[at + 3]);
        let high = join4(s[at + 4], s[at + 5], s[at + 6], s[at + 7]);
        return join8(low, high);
    }
    if at < s.len() {
        return join8(u32_at(s, at), u32_at(s, at + 4));
    }
    0
}

// The signed 32-bit word at a position.
pub fn i32_at(s: &[u8], at: usize) -> i32
    ensures { result ≡ signed (word32 s.now at) }
{
    u32_at(s, at).cast_signed()
}

// The magnitude of a signed word: 2147483648 for the least.
pub fn magnitude(x: i32) -> u32
    ensures { result ≡ nat_abs x }
{
    x.unsigned_abs()
}

// A signed word as it is, or 0 for a negative one.
pub fn above_zero(z: i32) -> u32
    ensures { result ≡ above_zero z }
{
    z.max(0).unsigned_abs()
}

// What of `s` stands from a position on: nothing, at the end of `s`, past the end.
pub fn from(s: &[u8], at: usize) -> &[u8]
    ensures { Part s.entry result (start_of s.now at) (drop at s.now) }
{
    &s[at.min(s.len())..]
}

// The part of `s` from a position on, for a length, or as much of it as is there.
pub fn part(s: &[u8], at: usize, n: usize) -> &[u8]
    ensures { Part s.entry result (start_of s.now at) (take n (drop at s.now)) }
{
    let rest = from(s, at);
    &rest[..n.min(rest.len())]
}
