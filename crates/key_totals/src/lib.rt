// Totals beside the keys (document 02, order 7): a table of up to 256 keys of one image, each with the number of its subkeys, and the sum of
// these numbers stored beside them. It goes in by value and comes back with the answer; nothing is walked to read it.
#![tactic(auto)]

ghost use Rattle.std.specs.Prelude.{◌≡◌, ◌<◌, IfSome};
ghost use Rattle.words.specs.Refusals.{OTHER_PLACE};
ghost use Rattle.words.specs.Paper.{tell, by};
ghost use Rattle.words.specs.Paper as paper;
ghost use Rattle.sub_key_walk.specs.Answers.{walk_told, walk_paper};
ghost use Rattle.key_totals.specs.Table.{PLACES, free, none, suits, first_of, found, counted_in, laid, refusing, keeping, walked, add_here, add_of, replace_here, replace_of, remove_of, number_of, kept_paper, changed_paper};

use cell_key_node::KeyNode;
use sub_key_walk::{Counts, WalkRefusal};
use words::Reason;

// The places of a table.
const PLACES: usize = 256;

// How many an entry more would need where all are taken.
const NEEDED: u32 = 257;

// A place: a key's position in the image and the number of its subkeys, or free. `taken` stays a flag: that a free place is all zero is
// promised (docs/CONTRACTS.md, `empty` and `remove`), and `Option` would not say it.
#[derive(Clone, Copy)]
pub struct Place {
    pub position: usize,
    pub kept: u32,
    pub taken: bool,
}

// The table: its places, and the sum of the numbers of those that are taken.
#[derive(Clone, Copy)]
pub struct Totals {
    pub places: [Place; 256],
    pub total: u64,
}

// The table after a call, and what the call answers.
#[derive(Clone, Copy)]
pub struct Changed {
    pub table: Totals,
    pub answer: Result<u32, WalkRefusal>,
}

// What is looked for in a table: a free place, or that of the key at a position. (An `Option` would say `free` less plainly.)
#[derive(Clone, Copy)]
enum Wanted {
    Free,
    Key(usize),
}

// A place that is free.
fn nothing() -> Place
    ensures { result ≡ free }
{
    Place {
        position: 0,
        kept: 0,
        taken: false,
    }
}

// A table with no key in it.
pub fn empty() -> Totals
    ensures { result ≡ none }
{
    let place = nothing();
    Totals {
        places: [place; 256],
        total: 0,
    }
}

// Whether a place is what is looked for.
fn is_wanted(place: Place, wanted: Wanted) -> bool
    ensures { result ≡ suits wanted place }
{
    match wanted {
        Wanted::Free => !place.taken,
        Wanted::Key(position) => place.taken && place.position == position,
    }
}

// The first place that is wanted.
fn first(table: Totals, wanted: Wanted) -> Option<usize>
    ensures place { result ≡ found (first_of (suits wanted) table.places) }
    ensures inside { IfSome result (λ i. i < PLACES) }
{
    for i in 0..PLACES {
        if is_wanted(table.places[i], wanted) {
            return Some(i);
        }
    }
    None
}

// What a place has in the total.
fn counted(place: Place) -> u64
    ensures { result ≡ counted_in place }
{
    if place.taken { place.kept as u64 } else { 0 }
}

// Another content of a place: the total loses what was there and gets what is there now.
fn lay(table: Totals, at: usize, place: Place) -> Totals
    requires { at < PLACES }
    ensures { result ≡ laid table at place }
{
    let mut next = table;
    let before = counted(table.places[at]);
    let after = counted(place);
    next.places[at] = place;
    next.total = table.total.wrapping_sub(before).wrapping_add(after);
    next
}

// A refusal by a number, at position 0: the places needed, where there are too few, and every other field 0.
fn told(reason: Reason, places: u32) -> WalkRefusal
    ensures { walk_told result ≡ tell (paper.number_of reason) 0 0 places 0 0 }
{
    WalkRefusal {
        reason,
        position: 0,
        lists: 0,
        places,
        entries: 0,
        dropped: 0,
    }
}

// A call that is refused: the table stays as it is.
fn refuse(table: Totals, refusal: WalkRefusal) -> Changed
    ensures { changed_paper result ≡ refusing table (walk_told refusal) }
{
    Changed {
        table,
        answer: Err(refusal),
    }
}

// A call that is refused because its key record does not stand in the image.
fn elsewhere(table: Totals) -> Changed
    ensures { changed_paper result ≡ refusing table (by OTHER_PLACE 0) }
{
    refuse(table, told(Reason::OtherPlace, 0))
}

// The number of the key at a position, in a place.
fn keep(table: Totals, at: usize, position: usize, kept: u32) -> Changed
    requires { at < PLACES }
    ensures { changed_paper result ≡ keeping table at position kept }
{
    let place = Place {
        position,
        kept,
        taken: true,
    };
    Changed {
        table: lay(table, at, place),
        answer: Ok(kept),
    }
}

// What the walk from a key record that stands in the image counts.
fn walk_counts(image: &[u8], key: KeyNode, budget: u32) -> Result<Counts, WalkRefusal>
    ensures { walk_paper result ≡ walked image.now key budget }
{
    sub_key_walk::sub_key_counts(
        image,
        key.base,
        key.number_of_sub_keys,
        key.sub_keys_list_offset_relative,
        budget,
    )
}

// A key that stands in the image and is not in the table yet, with the number that the walk from its record keeps.
fn add_here(table: Totals, image: &[u8], key: KeyNode, budget: u32) -> Changed
    ensures { changed_paper result ≡ add_here table image.now key budget }
{
    if first(table, Wanted::Key(key.position)).is_some() {
        return refuse(table, told(Reason::AlreadyIn, 0));
    }
    match walk_counts(image, key, budget) {
        Err(fault) => refuse(table, fault),
        Ok(counts) => match first(table, Wanted::Free) {
            None => refuse(table, told(Reason::NoRoom, NEEDED)),
            Some(at) => keep(table, at, key.position, counts.kept),
        },
    }
}

// A key that is not in the table yet. A record that does not stand in the image is refused before all else.
pub fn add(table: Totals, image: &[u8], key: KeyNode, budget: u32) -> Changed
    ensures { changed_paper result ≡ add_of table image.now key budget }
{
    let stands = key_in_place::is_in_place(image, key);
    if !stands {
        return elsewhere(table);
    }
    add_here(table, image, key, budget)
}

// A key that stands in the image and is in the table, with the number that the walk from its record keeps now.
fn replace_here(table: Totals, image: &[u8], key: KeyNode, budget: u32) -> Changed
    ensures { changed_paper result ≡ replace_here table image.now key budget }
{
    let Some(at) = first(table, Wanted::Key(key.position)) else {
        return refuse(table, told(Reason::NotFound, 0));
    };
    match walk_counts(image, key, budget) {
        Err(fault) => refuse(table, fault),
        Ok(counts) => keep(table, at, key.position, counts.kept),
    }
}

// A key that is in the table. A record that does not stand in the image is refused before all else.
pub fn replace(table: Totals, image: &[u8], key: KeyNode, budget: u32) -> Changed
    ensures { changed_paper result ≡ replace_of table image.now key budget }
{
    let there = key_in_place::is_in_place(image, key);
    if !there {
        return elsewhere(table);
    }
    replace_here(table, image, key, budget)
}

// A key is taken out, and its place is free. The number that it had.
pub fn remove(table: Totals, position: usize) -> Changed
    ensures { changed_paper result ≡ remove_of table position }
{
    match first(table, Wanted::Key(position)) {
        None => refuse(table, told(Reason::NotFound, 0)),
        Some(at) => Changed {
            table: lay(table, at, nothing()),
            answer: Ok(table.places[at].kept),
        },
    }
}

// The sum over the keys of the table, as it is stored.
pub fn total_of(table: Totals) -> u64
    ensures { result ≡ table.total }
{
    table.total
}

// The number of the key at a position.
pub fn kept_of(table: Totals, position: usize) -> Result<u32, WalkRefusal>
    ensures { kept_paper result ≡ number_of table position }
{
    match first(table, Wanted::Key(position)) {
        None => Err(told(Reason::NotFound, 0)),
        Some(at) => Ok(table.places[at].kept),
    }
}
