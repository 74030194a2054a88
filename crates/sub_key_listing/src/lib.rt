// Listings of a key's subkeys, as another tool delivers them (document 02, order 12): one is checked against the walk, or written. The
// walk is measured first; then it goes once more through the lists, beside the listing's records. Nothing is copied in between.
#![tactic(auto)]

ghost use Rattle.std.specs.Prelude.{ℕ, ◌≡◌, List, [], ◌∷◌, true, ◌+◌, ◌*◌, ◌≤◌, length};
ghost use Rattle.words.specs.Paper.{by, number_of};
ghost use Rattle.sub_key_list.specs.Leaves.{keep, leaf_kept};
ghost use Rattle.sub_key_walk.specs.Trace.{trace, ordinary, kept_of};
ghost use Rattle.sub_key_walk.specs.Walk.{Stands, Filled};
ghost use Rattle.sub_key_walk.specs.Answers.{walk_told};
ghost use Rattle.sub_key_walk.proofs.Uses.{Use};
ghost use Rattle.writing.specs.Writing.{with_bytes};
ghost use Rattle.sub_key_listing.specs.Listing.{opening, plain, named, same, wellformed};
ghost use Rattle.sub_key_listing.specs.Answers.{offsets_of, right_listing, check_paper, checked_of, written_of, full_listing, write_told, WriteAnswered};
ghost use Rattle.sub_key_listing.specs.Steps.{number_of_kind, begins, all_named, closes, framed, Opens, agrees};

use cell_key_node::KeyNode;
use sub_key_list::{LeafList, SubKeyList};
use sub_key_walk::{Counts, WalkRefusal};
use words::Reason;

// The kinds of records.
#[derive(Clone, Copy)]
enum Kind {
    Opens = 1,
    Names = 2,
    Closes = 3,
}

impl Kind {
    // The number in a record.
    fn number(self) -> u16
        ensures { result ≡ number_of_kind self }
    {
        self as u16
    }
}

// The bytes of an opening, of any other record, and of a listing without offsets.
const OPENING: usize = 18;

const RECORD: usize = 10;

const FRAME: usize = 28;

// A listing that is written: its bytes, and what the walk counts.
#[derive(Clone, Copy)]
pub struct Written {
    pub bytes: u64,
    pub kept: u32,
    pub lists: u32,
    pub entries: u32,
    pub dropped: u32,
}

// A refusal to write: as one of the walk, with the bytes needed where there is no room.
#[derive(Clone, Copy)]
pub struct WriteRefusal {
    pub reason: Reason,
    pub position: usize,
    pub lists: u32,
    pub bytes: u64,
    pub entries: u32,
    pub dropped: u32,
}

impl From<WalkRefusal> for WriteRefusal {
    ghost from_gives = { λ fault r. write_told r ≡ walk_told fault };

    fn from(fault: WalkRefusal) -> WriteRefusal {
        WriteRefusal {
            reason: fault.reason,
            position: fault.position,
            lists: fault.lists,
            bytes: fault.places as u64,
            entries: fault.entries,
            dropped: fault.dropped,
        }
    }
}

// ---- which bytes are a listing

// Whether a record of so many bytes behind its length, and of a kind, begins at a place.
fn begins_at(listing: &[u8], at: usize, size: u32, kind: Kind) -> bool
    requires { at + 6 ≤ length listing.now }
    ensures { result ≡ begins listing.now at size (number_of_kind kind) }
{
    (words::u32_at(listing, at) == size) & (words::u16_at(listing, at + 4) == kind.number())
}

// Whether `n` records of one offset stand behind an opening. (`n` is part of what is judged, as in the definition `framed`: no length of a
// slice.)
fn all_named(listing: &[u8], n: usize) -> bool
    requires { 18 + 10 * n ≤ length listing.now }
    ensures { result ≡ all_named listing.now n 18 }
{
    for i in 0..n {
        if !begins_at(listing, OPENING + RECORD * i, 6, Kind::Names) {
            return false;
        }
    }
    true
}

// Whether a close with a number stands at a place.
fn closes_at(listing: &[u8], at: usize, n: usize) -> bool
    requires { at + 10 ≤ length listing.now }
    ensures { result ≡ closes listing.now at n }
{
    let number = words::u32_at(listing, at + 6) as usize;
    begins_at(listing, at, 6, Kind::Closes) && number == n
}

// Whether the bytes are an opening, `n` offsets, and a close with that number.
fn is_framed(listing: &[u8], n: usize) -> bool
    requires { 28 + 10 * n ≤ length listing.now }
    ensures { result ≡ framed listing.now n }
{
    begins_at(listing, 0, 14, Kind::Opens)
        && all_named(listing, n)
        && closes_at(listing, OPENING + RECORD * n, n)
}

// Whether the bytes are a listing with its true number, whatever it names.
fn is_listing(listing: &[u8]) -> bool
    ensures { result ≡ wellformed listing.now }
{
    let bytes = listing.len();
    if bytes < FRAME {
        return false;
    }
    let n = (bytes - FRAME) / RECORD;
    if FRAME + RECORD * n != bytes {
        return false;
    }
    is_framed(listing, n)
}

// ---- the offsets of a walk, taken one after another

// What is done with the offsets that a walk keeps: they lead from one state to another, where there is room for them. What is written goes to
// `out`. (A state is handed on by value: behind a reference it would go through memory at each entry.)
trait Takes {
    ghost taking: { Use (Self × List ℕ) };

    fn take(self, out: &mut [u8], k: u32) -> Self
        requires { taking.Ready (k ∷ []) (self, out.old) }
        ensures { taking.Goes (k ∷ []) (self, out.old) (result, out.new) };
}

// Takes an entry, if it is kept.
fn take_kept<T: Takes>(from: T, out: &mut [u8], v: u32, base: u32) -> T
    requires { T.taking.Ready (keep (v + base) []) (from, out.old) }
    ensures { T.taking.Goes (keep (v + base) []) (from, out.old) (result, out.new) }
{
    match v.checked_add(base) {
        Some(k) => from.take(out, k),
        None => from,
    }
}

// Takes what is kept of the entries of the leaf list that stands at a position.
fn take_leaf<T: Takes>(
    image: &[u8],
    base: u32,
    position: usize,
    leaf: LeafList,
    from: T,
    out: &mut [u8],
) -> T
    requires stands { Stands image.now position leaf }
    requires ready { T.taking.Ready (leaf_kept image.now base leaf.entry_size leaf.count (position + 8)) (from, out.old) }
    ensures { T.taking.Goes (leaf_kept image.now base leaf.entry_size leaf.count (position + 8)) (from, out.old) (result, out.new) }
{
    let size = leaf.entry_size as usize;
    let mut to = from;
    let mut at = position + 8;
    for i in 0..leaf.count {
        let v = words::u32_at(image, at);
        to = take_kept(to, out, v, base);
        at += size;
    }
    to
}

// Takes all that the walk of the list at an offset keeps, with so many levels left.
fn take_walk<T: Takes>(
    image: &[u8],
    base: u32,
    left: u32,
    offset: u32,
    from: T,
    out: &mut [u8],
) -> T
    requires { T.taking.Ready (kept_of (trace (ordinary image.now) left image.now base offset)) (from, out.old) }
    ensures { T.taking.Goes (kept_of (trace (ordinary image.now) left image.now base offset)) (from, out.old) (result, out.new) }
{
    if left == 0 {
        return from;
    }
    let position = (offset as usize) + (base as usize);
    match sub_key_list::read_list(image, position) {
        Err(_) => from,
        Ok(SubKeyList::Leaf(leaf)) => take_leaf(image, base, position, leaf, from, out),
        Ok(SubKeyList::Index(index)) => {
            let mut to = from;
            let mut pos = position + 8;
            for i in 0..index.count {
                let next = words::u32_at(image, pos);
                to = take_walk(image, base, left - 1, next, to, out);
                pos += 4;
            }
            to
        }
    }
}

// ---- held against a listing

// The records of a listing, held against offsets: where the next one stands, until one holds another offset.
#[derive(Clone, Copy)]
struct Comparer<'a> {
    listing: &'a [u8],
    place: Option<usize>,
}

impl Takes for Comparer<'_> {
    ghost use Rattle.sub_key_listing.specs.Uses.{comparing};

    ghost taking = { comparing };

    fn take(self, out: &mut [u8], k: u32) -> Self {
        let place = match self.place {
            Some(at) if words::u32_at(self.listing, at + 6) == k => Some(at + RECORD),
            _ => None,
        };
        Comparer { place, ..self }
    }
}

// ---- a listing written

// A record of a kind and a number of four bytes.
fn put_plain(out: &mut [u8], at: usize, kind: Kind, x: u32)
    requires { at + 10 ≤ length out.old }
    ensures { out.new ≡ with_bytes out.old at (plain (number_of_kind kind) x) }
{
    writing::put_u32(out, at, 6);
    writing::put_u16(out, at + 4, kind.number());
    writing::put_u32(out, at + 6, x);
}

// The opening.
fn put_opening(out: &mut [u8], base: u32, position: u64)
    requires { 18 ≤ length out.old }
    ensures { out.new ≡ with_bytes out.old 0 (opening base position) }
{
    writing::put_u32(out, 0, 14);
    writing::put_u16(out, 4, Kind::Opens.number());
    writing::put_u32(out, 6, base);
    writing::put_u64(out, 10, position);
}

// The records of a listing that is written: where the next one goes.
#[derive(Clone, Copy)]
struct Writer {
    place: usize,
}

impl Takes for Writer {
    ghost use Rattle.sub_key_listing.specs.Uses.{recording};

    ghost taking = { recording };

    fn take(self, out: &mut [u8], k: u32) -> Self {
        put_plain(out, self.place, Kind::Names, k);
        Writer {
            place: self.place + RECORD,
        }
    }
}

// ---- the listing of a key record

// Whether a listing has an opening with this base and position.
fn opens_with(listing: &[u8], base: u32, position: usize) -> bool
    ensures { Opens listing.now base position result }
{
    words::u32_at(listing, 6) == base && words::u64_at(listing, 10) == position as u64
}

// Whether the offsets of a listing of `n` are those of a key record, whose walk keeps that many.
fn offsets_agree(image: &[u8], key: KeyNode, n: usize, listing: &[u8]) -> bool
    requires counted { n ≡ length (offsets_of image.now key) }
    requires room { 28 + 10 * n ≤ length listing.now }
    ensures { result ≡ agrees listing.now (offsets_of image.now key) }
{
    if n == 0 {
        return true;
    }
    let comparer = Comparer {
        listing,
        place: Some(OPENING),
    };
    let list = key.sub_keys_list_offset_relative;
    let levels = sub_key_walk::LEVELS;
    let compared = take_walk(image, key.base, levels, list, comparer, &mut []);
    compared.place.is_some()
}

// Whether bytes that are a listing are the one of a key record, whose walk keeps so many offsets.
fn is_right(image: &[u8], key: KeyNode, kept: u32, listing: &[u8]) -> bool
    requires formed { wellformed listing.now ≡ true }
    requires counted { kept ≡ length (offsets_of image.now key) }
    ensures { result ≡ same listing.now (right_listing image.now key) }
{
    let needed = FRAME + RECORD * (kept as usize);
    if listing.len() != needed {
        return false;
    }
    opens_with(listing, key.base, key.position) && offsets_agree(image, key, kept as usize, listing)
}

// The refusals of a listing, which tell their number alone.
fn refusal(reason: Reason) -> WalkRefusal
    ensures { walk_told result ≡ by (number_of reason) 0 }
{
    WalkRefusal {
        reason,
        position: 0,
        lists: 0,
        places: 0,
        entries: 0,
        dropped: 0,
    }
}

// Whether a listing is the one of a key record in an image, byte for byte. The walk's refusals are those of its measuring: the room
// that its offsets need is the listing itself.
pub fn check_listing(
    image: &[u8],
    key: KeyNode,
    budget: u32,
    listing: &[u8],
) -> Result<Counts, WalkRefusal>
    ensures { check_paper result ≡ checked_of image.now key budget listing.now }
{
    if !is_listing(listing) {
        return Err(refusal(Reason::BadRecord));
    }
    let counts = key_in_place::sub_key_counts_of(image, key, budget)?;
    if !is_right(image, key, counts.kept, listing) {
        return Err(refusal(Reason::NotTheList));
    }
    Ok(counts)
}

// The offsets of a key record, whose walk keeps so many, behind an opening; and the place behind them.
fn put_offsets(image: &[u8], key: KeyNode, kept: u32, out: &mut [u8]) -> usize
    requires counted { kept ≡ length (offsets_of image.now key) }
    requires room { 28 + 10 * kept ≤ length out.old }
    ensures { Filled (named (offsets_of image.now key)) out.old 18 result out.new }
{
    if kept == 0 {
        return OPENING;
    }
    let writer = Writer { place: OPENING };
    let list = key.sub_keys_list_offset_relative;
    let levels = sub_key_walk::LEVELS;
    take_walk(image, key.base, levels, list, writer, out).place
}

// The listing of a key record, whose walk keeps so many offsets, from the first byte on.
fn put_listing(image: &[u8], key: KeyNode, kept: u32, out: &mut [u8])
    requires counted { kept ≡ length (offsets_of image.now key) }
    requires room { 28 + 10 * kept ≤ length out.old }
    ensures { out.new ≡ with_bytes out.old 0 (right_listing image.now key) }
{
    put_opening(out, key.base, key.position as u64);
    let end = put_offsets(image, key, kept, out);
    put_plain(out, end, Kind::Closes, kept);
}

// What is told of a listing with the offsets of a walk that counts so many.
fn all_told(counts: Counts) -> Written
    ensures { result ≡ written_of counts }
{
    let bytes = 28 + 10 * (counts.kept as u64);
    Written {
        bytes,
        kept: counts.kept,
        lists: counts.lists,
        entries: counts.entries,
        dropped: counts.dropped,
    }
}

// The refusal of a listing that does not fit.
fn no_room(whole: Written) -> WriteRefusal
    ensures { write_told result ≡ full_listing whole }
{
    WriteRefusal {
        reason: Reason::NoRoom,
        position: 0,
        lists: whole.lists,
        bytes: whole.bytes,
        entries: whole.entries,
        dropped: whole.dropped,
    }
}

// The listing of a key record in an image, into the first bytes of `out`: what `check_listing` accepts with the same budget. A refusal
// changes no byte of it.
pub fn write_listing(
    image: &[u8],
    key: KeyNode,
    budget: u32,
    out: &mut [u8],
) -> Result<Written, WriteRefusal>
    ensures { WriteAnswered image.now key budget out.old result out.new }
{
    let walk = key_in_place::sub_key_counts_of(image, key, budget)?;
    let whole = all_told(walk);
    if (out.len() as u64) < whole.bytes {
        return Err(no_room(whole));
    }
    put_listing(image, key, walk.kept, out);
    Ok(whole)
}
