// The subkeys of a key record: the walk from its list through the lists that `ri` lists name, depth first and in order; and those of
// one leaf list. A walk is measured first and its buffer filled after, so that a refusal leaves the buffer as it was.
#![tactic(auto)]

ghost use Rattle.std.specs.Prelude.{◌≡◌, ◌+◌, ◌%◌, ◌≤◌, [], length};
ghost use Rattle.words.specs.Words.{word32};
ghost use Rattle.words.specs.Paper.{number_of, fault_number};
ghost use Rattle.sub_key_list.specs.Lists.{list_paper};
ghost use Rattle.sub_key_list.specs.Leaves.{keep, leaf_kept, drop_one, leaf_dropped, leaf_of, only_leaf};
ghost use Rattle.sub_key_walk.specs.Trace.{trace, ordinary, walk_from, kept_of};
ghost use Rattle.sub_key_walk.specs.Judge.{fault, judge};
ghost use Rattle.sub_key_walk.specs.Answers.{BUDGET_LIMIT, none, from_record, measured, full_of, walk_told, walk_paper, WalkAnswered};
ghost use Rattle.sub_key_walk.specs.Leaf.{read_of, LeafAnsweredAs, LeafAnswered};
ghost use Rattle.sub_key_walk.specs.Strict.{strict_measured, StrictAnswered, StrictLeafAnswered};
ghost use Rattle.sub_key_walk.specs.Walk.{start_fault, Entries, Stands, Whole, Bound, Sized, Filled, Bounded, Small, with_index, with_leaf, reading_by, walk_by, Walk, Roomy, AnsweredAs};

use sub_key_list::{LeafList, SubKeyList};
use words::{Reason, Refusal};

// The greatest budget, the greatest count of subkeys or of values, and the levels of lists.
const BUDGET_LIMIT: u32 = 65536;

pub const COUNT_LIMIT: u32 = 1048576;

pub const LEVELS: u32 = 8;

// Of so many entries of a leaf list those dropped are counted at once; of more, in pieces of so many.
const FEW: usize = 32;

const PIECE: usize = 4096;

// Where some may be dropped, they are written in blocks of so many.
const BLOCK: usize = 16;

// Offsets kept, lists read, entries of leaf lists, dropped ones included, and those dropped.
#[derive(Clone, Copy)]
pub struct Counts {
    pub kept: u32,
    pub lists: u32,
    pub entries: u32,
    pub dropped: u32,
}

// Nothing is read yet.
const NONE: Counts = Counts {
    kept: 0,
    lists: 0,
    entries: 0,
    dropped: 0,
};

impl Counts {
    // With an `ri` list more, which gives nothing itself.
    fn with_index(mut self) -> Counts
        requires { self.lists ≤ 65535 }
        ensures { result ≡ with_index self }
    {
        self.lists += 1;
        self
    }

    // With a leaf list more, by what it gave.
    fn with_leaf(self, read: LeafRead) -> Counts
        requires { (Bounded 65535 self) × (Small read) }
        ensures { result ≡ with_leaf self read }
    {
        Counts {
            kept: self.kept + read.kept,
            lists: self.lists + 1,
            entries: self.entries + read.entries,
            dropped: self.dropped + read.dropped,
        }
    }
}

// A refusal: its number, the position of the list at fault, the lists read so far and, where there is no room, the places
// needed, the entries and those dropped.
#[derive(Clone, Copy)]
pub struct WalkRefusal {
    pub reason: Reason,
    pub position: usize,
    pub lists: u32,
    pub places: u32,
    pub entries: u32,
    pub dropped: u32,
}

// How lists are read: in the ordinary way, or strictly with a minor version.
#[derive(Clone, Copy)]
enum Profile {
    Ordinary,
    Strict { minor: u32 },
}

// What one leaf list gave: the offsets kept, all entries, dropped ones included, and those dropped.
#[derive(Clone, Copy)]
pub struct LeafRead {
    pub kept: u32,
    pub entries: u32,
    pub dropped: u32,
}

// A refusal of the list at a position, after so many lists.
fn refusal(reason: Reason, position: usize, lists: u32) -> WalkRefusal
    ensures { walk_told result ≡ fault (number_of reason) position lists }
{
    WalkRefusal {
        reason,
        position,
        lists,
        places: 0,
        entries: 0,
        dropped: 0,
    }
}

// The refusal of what can be read, where the buffer has too few places.
fn full(sum: Counts) -> WalkRefusal
    ensures { walk_told result ≡ full_of sum }
{
    WalkRefusal {
        reason: Reason::NoRoom,
        position: 0,
        lists: sum.lists,
        places: sum.kept,
        entries: sum.entries,
        dropped: sum.dropped,
    }
}

// The word at a place whose four bytes are there.
fn word(image: &[u8], at: usize) -> u32
    requires { at + 4 ≤ length image.now }
    ensures { result ≡ word32 image.now at }
{
    u32::from_le_bytes([image[at], image[at + 1], image[at + 2], image[at + 3]])
}

// An entry of 8 bytes whole, as one number: so the compiler loads it whole, and makes wide steps without a gap behind the last one.
fn pair(image: &[u8], at: usize) -> u64
    requires { at + 8 ≤ length image.now }
    ensures { result % 4294967296 ≡ word32 image.now at }
{
    u64::from_le_bytes([
        image[at],
        image[at + 1],
        image[at + 2],
        image[at + 3],
        image[at + 4],
        image[at + 5],
        image[at + 6],
        image[at + 7],
    ])
}

// The offset of an entry of `size` bytes at a place.
fn offset_at(image: &[u8], size: usize, at: usize) -> u32
    requires wide { 4 ≤ size }
    requires inside { at + size ≤ length image.now }
    ensures { result ≡ word32 image.now at }
{
    if size == 8 {
        (pair(image, at) % 4294967296) as u32
    } else {
        word(image, at)
    }
}

// 1 for an entry that is dropped, and 0 for one that is kept.
fn drop_one(v: u32, base: u32) -> u32
    ensures { result ≡ drop_one (v + base) }
{
    if v.checked_add(base).is_none() { 1 } else { 0 }
}

// `image, size, pos, n` of the functions on entries stay parameters: a struct of them with the invariant was tried, and each clause grew
// longer (`self.entry.image.now`, `self.entry.size`), so that it is no plainer.

// A bound of the offsets of entries: all their bits, in two streams, so that two loads go at a time. The loops over entries are called
// with a constant size, so that the compiler makes wide steps of them.
fn bound_of(image: &[u8], size: usize, pos: usize, n: usize) -> u32
    requires { Entries image.now size n pos }
    ensures { Bound image.now size n pos result }
{
    let half = n / 2;
    let far = pos + size * half;
    let mut near = 0;
    let mut further = 0;
    for i in 0..half {
        near |= offset_at(image, size, pos + size * i);
        further |= offset_at(image, size, far + size * i);
    }
    if half + half < n {
        further |= offset_at(image, size, far + size * half);
    }
    near | further
}

// Whether it is plain from their bound that none of the entries is dropped.
fn fits(image: &[u8], base: u32, size: usize, pos: usize, n: usize) -> bool
    requires there { Entries image.now size n pos }
    requires sized { Sized size }
    ensures { Whole image.now base size n pos result }
{
    let most = u32::MAX - base;
    if size == 4 {
        bound_of(image, 4, pos, n) <= most
    } else {
        bound_of(image, 8, pos, n) <= most
    }
}

// How many of the entries of `size` bytes each, the first at `pos`, are dropped: those whose sum with the base passes 32 bits.
fn dropped_of(image: &[u8], base: u32, size: usize, pos: usize, n: usize) -> u32
    requires there { Entries image.now size n pos }
    requires few { n ≤ 65535 }
    ensures { result ≡ leaf_dropped image.now base size n pos }
{
    let mut dropped = 0;
    for i in 0..n {
        let v = offset_at(image, size, pos + size * i);
        dropped += drop_one(v, base);
    }
    dropped
}

// The same, with the size as a constant.
fn count_dropped(image: &[u8], base: u32, size: usize, pos: usize, n: usize) -> u32
    requires there { Entries image.now size n pos }
    requires sized { Sized size }
    requires few { n ≤ 65535 }
    ensures { result ≡ leaf_dropped image.now base size n pos }
{
    if size == 4 {
        dropped_of(image, base, 4, pos, n)
    } else {
        dropped_of(image, base, 8, pos, n)
    }
}

// The same of many entries, piece by piece, as none is dropped of most: the first piece of which one may be dropped, and all behind it, are counted.
fn dropped_wide(image: &[u8], base: u32, size: usize, pos: usize, n: usize) -> u32
    requires there { Entries image.now size n pos }
    requires sized { Sized size }
    requires few { n ≤ 65535 }
    ensures { result ≡ leaf_dropped image.now base size n pos }
{
    let mut at = pos;
    let mut left = n;
    while FEW < left {
        let k = left.min(PIECE);
        if !fits(image, base, size, at, k) {
            return count_dropped(image, base, size, at, left);
        }
        at += size * k;
        left -= k;
    }
    count_dropped(image, base, size, at, left)
}

// Writes the sums of entries of which none is dropped from a place on, and gives the place behind them.
fn whole_of(
    image: &[u8],
    base: u32,
    size: usize,
    pos: usize,
    n: usize,
    out: &mut [u32],
    place: usize,
) -> usize
    requires there { Entries image.now size n pos }
    requires none_dropped { leaf_dropped image.now base size n pos ≡ 0 }
    requires room { place + length (leaf_kept image.now base size n pos) ≤ length out.old }
    ensures { Filled (leaf_kept image.now base size n pos) out.old place result out.new }
{
    for i in 0..n {
        let v = offset_at(image, size, pos + size * i);
        out[place + i] = v + base;
    }
    place + n
}

// The same, with the size as a constant.
fn fill_whole(
    image: &[u8],
    base: u32,
    size: usize,
    pos: usize,
    n: usize,
    out: &mut [u32],
    place: usize,
) -> usize
    requires there { Entries image.now size n pos }
    requires sized { Sized size }
    requires none_dropped { leaf_dropped image.now base size n pos ≡ 0 }
    requires room { place + length (leaf_kept image.now base size n pos) ≤ length out.old }
    ensures { Filled (leaf_kept image.now base size n pos) out.old place result out.new }
{
    if size == 4 {
        whole_of(image, base, 4, pos, n, out, place)
    } else {
        whole_of(image, base, 8, pos, n, out, place)
    }
}

// One entry more: written where it is kept. The place behind it.
fn put_kept(v: u32, base: u32, out: &mut [u32], to: usize) -> usize
    requires { to + length (keep (v + base) []) ≤ length out.old }
    ensures { Filled (keep (v + base) []) out.old to result out.new }
{
    match v.checked_add(base) {
        Some(sum) => {
            out[to] = sum;
            to + 1
        }
        None => to,
    }
}

// The same of entries of which some may be dropped, one by one.
fn fill_each(
    image: &[u8],
    base: u32,
    size: usize,
    pos: usize,
    n: usize,
    out: &mut [u32],
    place: usize,
) -> usize
    requires there { Entries image.now size n pos }
    requires room { place + length (leaf_kept image.now base size n pos) ≤ length out.old }
    ensures { Filled (leaf_kept image.now base size n pos) out.old place result out.new }
{
    let mut to = place;
    for i in 0..n {
        let v = offset_at(image, size, pos + size * i);
        to = put_kept(v, base, out, to);
    }
    to
}

// The same block by block, and one by one in a block of which one may be dropped and behind the last.
fn fill_kept(
    image: &[u8],
    base: u32,
    size: usize,
    pos: usize,
    n: usize,
    out: &mut [u32],
    place: usize,
) -> usize
    requires there { Entries image.now size n pos }
    requires sized { Sized size }
    requires room { place + length (leaf_kept image.now base size n pos) ≤ length out.old }
    ensures { Filled (leaf_kept image.now base size n pos) out.old place result out.new }
{
    let mut at = pos;
    let mut to = place;
    let mut left = n;
    while BLOCK <= left {
        if fits(image, base, size, at, BLOCK) {
            to = fill_whole(image, base, size, at, BLOCK, out, to);
        } else {
            to = fill_each(image, base, size, at, BLOCK, out, to);
        }
        at += size * BLOCK;
        left -= BLOCK;
    }
    fill_each(image, base, size, at, left, out, to)
}

// How many entries of the leaf list that stands at a position are dropped, where they are few.
fn dropped_few(image: &[u8], base: u32, position: usize, leaf: LeafList) -> u32
    requires { Stands image.now position leaf }
    ensures { result ≡ leaf_dropped image.now base leaf.entry_size leaf.count (position + 8) }
{
    count_dropped(
        image,
        base,
        leaf.entry_size as usize,
        position + 8,
        leaf.count as usize,
    )
}

// What it gives, counted.
fn read_leaf(image: &[u8], base: u32, position: usize, leaf: LeafList) -> LeafRead
    requires { Stands image.now position leaf }
    ensures counted { result ≡ read_of (leaf_of image.now base position leaf.entry_size leaf.count) }
    ensures few { Small result }
{
    let n = leaf.count as usize;
    let dropped = if n <= FEW {
        dropped_few(image, base, position, leaf)
    } else {
        dropped_wide(image, base, leaf.entry_size as usize, position + 8, n)
    };
    let entries = leaf.count as u32;
    LeafRead {
        kept: entries - dropped,
        entries,
        dropped,
    }
}

// And written from a place on. Where it is known that none is dropped, `whole` says so. (A fact that picks the faster loop, which no type
// says more plainly.)
fn fill_leaf(
    image: &[u8],
    base: u32,
    position: usize,
    leaf: LeafList,
    whole: bool,
    out: &mut [u32],
    place: usize,
) -> usize
    requires stands { Stands image.now position leaf }
    requires kept_whole { Whole image.now base leaf.entry_size leaf.count (position + 8) whole }
    requires room { place + length (leaf_kept image.now base leaf.entry_size leaf.count (position + 8)) ≤ length out.old }
    ensures { Filled (leaf_kept image.now base leaf.entry_size leaf.count (position + 8)) out.old place result out.new }
{
    let n = leaf.count as usize;
    let size = leaf.entry_size;
    let pos = position + 8;
    if whole {
        fill_whole(image, base, size as usize, pos, n, out, place)
    } else if size == 4 {
        fill_kept(image, base, 4, pos, n, out, place)
    } else {
        fill_kept(image, base, 8, pos, n, out, place)
    }
}

// The list at a position, with so many levels left. Every list but the top one is named by an `ri` list.
#[inline(always)]
fn list_by(
    image: &[u8],
    position: usize,
    profile: Profile,
    levels: u32,
) -> Result<SubKeyList, Refusal>
    ensures { list_paper result ≡ reading_by profile image.now levels position }
{
    match profile {
        Profile::Ordinary => sub_key_list::read_list(image, position),
        Profile::Strict { minor } => {
            let named = levels < LEVELS;
            sub_key_list::strict_list(image, position, minor, named)
        }
    }
}

// The subkeys of the leaf list at a position, by a profile.
fn leaf_sub_keys_by(
    image: &[u8],
    base: u32,
    position: usize,
    profile: Profile,
    out: &mut [u32],
) -> Result<LeafRead, WalkRefusal>
    ensures { LeafAnsweredAs (only_leaf image.now base position (reading_by profile image.now LEVELS position)) out.old result out.new }
{
    match list_by(image, position, profile, LEVELS) {
        Err(fault) => Err(refusal(fault.reason, fault.position, 0)),
        Ok(SubKeyList::Index(_)) => Err(refusal(Reason::BadSign, position, 0)),
        Ok(SubKeyList::Leaf(leaf)) => {
            let read = read_leaf(image, base, position, leaf);
            if out.len() < (read.kept as usize) {
                return Err(full(Counts {
                    kept: read.kept,
                    lists: 0,
                    entries: read.entries,
                    dropped: read.dropped,
                }));
            }
            fill_leaf(image, base, position, leaf, read.dropped == 0, out, 0);
            Ok(read)
        }
    }
}

// The subkeys of the leaf list at a position, each plus the base, into `out`. A refusal changes no place of it.
pub fn leaf_sub_keys(
    image: &[u8],
    base: u32,
    position: usize,
    out: &mut [u32],
) -> Result<LeafRead, WalkRefusal>
    ensures { LeafAnswered image.now base position out.old result out.new }
{
    leaf_sub_keys_by(image, base, position, Profile::Ordinary, out)
}

// The same with the list read strictly. What strict accepts, the ordinary reading answers identically.
pub fn strict_leaf_sub_keys(
    image: &[u8],
    base: u32,
    position: usize,
    minor: u32,
    out: &mut [u32],
) -> Result<LeafRead, WalkRefusal>
    ensures { StrictLeafAnswered image.now base position minor out.old result out.new }
{
    leaf_sub_keys_by(image, base, position, Profile::Strict { minor }, out)
}

// Measures the walk of the list at an offset, with so many levels left, after what is read so far.
fn measure(
    image: &[u8],
    base: u32,
    budget: u32,
    profile: Profile,
    levels: u32,
    offset: u32,
    so_far: Counts,
) -> Result<Counts, WalkRefusal>
    requires { (budget ≤ BUDGET_LIMIT) × (Bounded budget so_far) }
    ensures { Walk budget so_far (trace (reading_by profile image.now) levels image.now base offset) result }
{
    let position = (offset as usize) + (base as usize);
    if levels == 0 {
        return Err(refusal(Reason::TooDeep, position, so_far.lists));
    }
    if so_far.lists == budget {
        return Err(refusal(Reason::OutOfSteps, position, so_far.lists));
    }
    match list_by(image, position, profile, levels) {
        Err(fault) => Err(refusal(fault.reason, fault.position, so_far.lists)),
        Ok(SubKeyList::Leaf(leaf)) => Ok(so_far.with_leaf(read_leaf(image, base, position, leaf))),
        Ok(SubKeyList::Index(index)) => {
            let mut sum = so_far.with_index();
            for i in 0..index.count {
                let next = word(image, position + 8 + 4 * (i as usize));
                sum = measure(image, base, budget, profile, levels - 1, next, sum)?;
            }
            Ok(sum)
        }
    }
}

// Writes what the walk of the list at an offset keeps, with so many levels left, to `out` from a place on, and gives the place behind
// it. A list that cannot be read has nothing: the walk is measured before.
fn fill(
    image: &[u8],
    base: u32,
    left: u32,
    offset: u32,
    whole: bool,
    out: &mut [u32],
    place: usize,
) -> usize
    requires { Roomy (trace (ordinary image.now) left image.now base offset) whole out.old place }
    ensures { Filled (kept_of (trace (ordinary image.now) left image.now base offset)) out.old place result out.new }
{
    if left == 0 {
        return place;
    }
    let position = (offset as usize) + (base as usize);
    match sub_key_list::read_list(image, position) {
        Err(_) => place,
        Ok(SubKeyList::Leaf(leaf)) => fill_leaf(image, base, position, leaf, whole, out, place),
        Ok(SubKeyList::Index(index)) => {
            let mut to = place;
            for k in 0..index.count {
                let next = word(image, position + 8 + 4 * (k as usize));
                to = fill(image, base, left - 1, next, whole, out, to);
            }
            to
        }
    }
}

// Measures the walk from the top list. A short leaf list, which most keys have, is read at once.
#[inline(always)]
fn measure_top(
    image: &[u8],
    base: u32,
    budget: u32,
    profile: Profile,
    list: u32,
) -> Result<Counts, WalkRefusal>
    requires { budget ≤ BUDGET_LIMIT }
    ensures { walk_paper result ≡ judge budget none (walk_by profile image.now base list) }
{
    let position = (list as usize) + (base as usize);
    if 0 < budget {
        if let Ok(SubKeyList::Leaf(leaf)) = list_by(image, position, profile, LEVELS) {
            if (leaf.count as usize) <= FEW {
                let dropped = dropped_few(image, base, position, leaf);
                let entries = leaf.count as u32;
                return Ok(Counts {
                    kept: entries - dropped,
                    lists: 1,
                    entries,
                    dropped,
                });
            }
        }
    }
    measure(image, base, budget, profile, LEVELS, list, NONE)
}

// Writes what the walk from the top list keeps, and gives the place behind it. A leaf list of which nothing is dropped is written at
// once.
#[inline(always)]
fn fill_top(image: &[u8], base: u32, list: u32, whole: bool, out: &mut [u32]) -> usize
    requires { Roomy (walk_from image.now base list) whole out.old 0 }
    ensures { Filled (kept_of (walk_from image.now base list)) out.old 0 result out.new }
{
    let position = (list as usize) + (base as usize);
    if whole {
        if let Ok(SubKeyList::Leaf(leaf)) = sub_key_list::read_list(image, position) {
            let size = leaf.entry_size as usize;
            return fill_whole(image, base, size, position + 8, leaf.count as usize, out, 0);
        }
    }
    fill(image, base, LEVELS, list, whole, out, 0)
}

// The refusal of a count or a budget before any list is reached, where there is one.
fn start_fault(count: u32, budget: u32) -> Option<Reason>
    ensures { fault_number result ≡ start_fault count budget }
{
    if BUDGET_LIMIT < budget {
        return Some(Reason::BadBudget);
    }
    if COUNT_LIMIT < count {
        return Some(Reason::TooMany);
    }
    None
}

// What the walk counts, by a profile.
#[inline(always)]
fn counts_by(
    image: &[u8],
    base: u32,
    count: u32,
    list: u32,
    budget: u32,
    profile: Profile,
) -> Result<Counts, WalkRefusal>
    ensures { walk_paper result ≡ from_record count budget (walk_by profile image.now base list) }
{
    if let Some(reason) = start_fault(count, budget) {
        return Err(refusal(reason, 0, 0));
    }
    if count == 0 {
        return Ok(NONE);
    }
    measure_top(image, base, budget, profile, list)
}

// What the walk from a key record with a subkey count and the offset of its list counts, with no regard to room. Nothing is written.
pub fn sub_key_counts(
    image: &[u8],
    base: u32,
    count: u32,
    list: u32,
    budget: u32,
) -> Result<Counts, WalkRefusal>
    ensures { walk_paper result ≡ measured image.now base count list budget }
{
    counts_by(image, base, count, list, budget, Profile::Ordinary)
}

// What it counts with each list read strictly.
pub fn strict_sub_key_counts(
    image: &[u8],
    base: u32,
    count: u32,
    list: u32,
    budget: u32,
    minor: u32,
) -> Result<Counts, WalkRefusal>
    ensures { walk_paper result ≡ strict_measured image.now base count list budget minor }
{
    counts_by(image, base, count, list, budget, Profile::Strict { minor })
}

// The subkeys of a key record, by a profile. What strict accepts, the ordinary reading answers identically: so it is filled as that
// one is.
#[inline(always)]
fn sub_keys_by(
    image: &[u8],
    base: u32,
    count: u32,
    list: u32,
    budget: u32,
    profile: Profile,
    out: &mut [u32],
) -> Result<Counts, WalkRefusal>
    ensures { AnsweredAs count budget (walk_by profile image.now base list) out.old result out.new }
{
    let sum = counts_by(image, base, count, list, budget, profile)?;
    if out.len() < (sum.kept as usize) {
        return Err(full(sum));
    }
    if 0 < sum.kept {
        fill_top(image, base, list, sum.dropped == 0, out);
    }
    Ok(sum)
}

// The subkeys of a key record with a subkey count and the offset of its list, into `out`. A refusal changes no place of it.
pub fn sub_keys(
    image: &[u8],
    base: u32,
    count: u32,
    list: u32,
    budget: u32,
    out: &mut [u32],
) -> Result<Counts, WalkRefusal>
    ensures { WalkAnswered image.now base count list budget out.old result out.new }
{
    sub_keys_by(image, base, count, list, budget, Profile::Ordinary, out)
}

// The same with each list read strictly. What strict accepts, the ordinary reading answers identically.
pub fn strict_sub_keys(
    image: &[u8],
    base: u32,
    count: u32,
    list: u32,
    budget: u32,
    minor: u32,
    out: &mut [u32],
) -> Result<Counts, WalkRefusal>
    ensures { StrictAnswered image.now base count list budget minor out.old result out.new }
{
    let profile = Profile::Strict { minor };
    sub_keys_by(image, base, count, list, budget, profile, out)
}
