// One subkey list: what stands at a position, taken apart by kind. Every function takes any image and any position.
#![tactic(auto)]

ghost use Rattle.std.specs.Prelude.{◌≡◌, length, ◌+◌, ◌-◌, ◌*◌, ◌≤◌};
ghost use Rattle.words.specs.Words.{word16};
ghost use Rattle.words.specs.Paper.{refused, by, and_then, verdict_paper, number_of};
ghost use Rattle.sub_key_list.specs.Lists.{word_of, KindOf, kind_of, list_paper, list_at, entry_size, kind_at, count_at};
ghost use Rattle.sub_key_list.specs.Strict.{least_minor, barred, own_cell, strict_checks, strict_at};

use cell::Fit;
use words::{Reason, Refusal};

// The kinds of list, each by the word of its two letters.
#[derive(Clone, Copy)]
pub enum Kind {
    Lf = 0x666c,
    Lh = 0x686c,
    Li = 0x696c,
    Ri = 0x6972,
}

impl Kind {
    // The kind that a word is, where it is one.
    fn of_word(word: u16) -> Option<Kind>
        ensures { KindOf result word }
    {
        match word {
            0x666c => Some(Kind::Lf),
            0x686c => Some(Kind::Lh),
            0x696c => Some(Kind::Li),
            0x6972 => Some(Kind::Ri),
            _ => None,
        }
    }

    // The word of its two letters.
    pub fn word(self) -> u16
        ensures { result ≡ word_of self }
    {
        self as u16
    }

    // The bytes that an entry takes.
    fn entry_size(self) -> u8
        ensures { result ≡ entry_size (word_of self) }
    {
        match self {
            Kind::Lf => 8,
            Kind::Lh => 8,
            Kind::Li => 4,
            Kind::Ri => 4,
        }
    }

    // The least minor version at which it is permitted.
    fn least_minor(self) -> u32
        ensures { result ≡ least_minor (word_of self) }
    {
        match self {
            Kind::Lf => 3,
            Kind::Lh => 5,
            Kind::Li => 0,
            Kind::Ri => 0,
        }
    }
}

// A leaf list: its kind, the bytes that an entry takes, and how many entries it has.
#[derive(Clone, Copy)]
pub struct LeafList {
    pub kind: Kind,
    pub entry_size: u8,
    pub count: u16,
}

// An `ri` list: how many lists it names.
#[derive(Clone, Copy)]
pub struct IndexList {
    pub count: u16,
}

// What stands at a position: a leaf list, or an index of lists.
#[derive(Clone, Copy)]
pub enum SubKeyList {
    Leaf(LeafList),
    Index(IndexList),
}

impl SubKeyList {
    // Its kind.
    fn kind(self) -> Kind
        ensures { result ≡ kind_of self }
    {
        match self {
            SubKeyList::Leaf(leaf) => leaf.kind,
            SubKeyList::Index(_) => Kind::Ri,
        }
    }
}

// A refusal of the list at a position.
fn refuse(reason: Reason, position: usize) -> Result<SubKeyList, Refusal>
    ensures { list_paper result ≡ refused (by (number_of reason) position) }
{
    Err(Refusal { reason, position })
}

// The 16-bit word at a place whose two bytes are there.
fn half(image: &[u8], at: usize) -> u16
    requires { at + 2 ≤ length image.now }
    ensures { result ≡ word16 image.now at }
{
    words::join2(image[at], image[at + 1])
}

// The list at a position. Its size word is not used.
pub fn read_list(image: &[u8], position: usize) -> Result<SubKeyList, Refusal>
    ensures { list_paper result ≡ list_at image.now position }
{
    if image.len() < position {
        return refuse(Reason::Outside, position);
    }
    let left = image.len() - position;
    if left < 8 {
        return refuse(Reason::CutShort, position);
    }
    let signature = half(image, position + 4);
    let count = half(image, position + 6);
    let Some(kind) = Kind::of_word(signature) else {
        return refuse(Reason::BadSign, position);
    };
    let entry_size = kind.entry_size();
    let entries = (entry_size as usize) * (count as usize);
    if left - 8 < entries {
        return refuse(Reason::CutShort, position);
    }
    match kind {
        Kind::Ri => Ok(SubKeyList::Index(IndexList { count })),
        _ => Ok(SubKeyList::Leaf(LeafList {
            kind,
            entry_size,
            count,
        })),
    }
}

// Whether a list is not permitted: for its kind, or as an `ri` list that an `ri` list names.
fn bars(minor: u32, named: bool, kind: Kind) -> bool
    ensures { result ≡ barred minor named (word_of kind) }
{
    if minor < kind.least_minor() {
        return true;
    }
    match kind {
        Kind::Ri => named,
        _ => false,
    }
}

// Whether the first bytes from a position on lie in an allocated cell of their own.
fn own_cell(image: &[u8], position: usize, needed: usize) -> bool
    requires { position + 4 ≤ length image.now }
    ensures { result ≡ own_cell image.now position needed }
{
    match cell::cell_at(image, position, needed) {
        Ok(Fit::Held(size)) => size.allocated,
        Ok(Fit::TooSmall(_)) => false,
        Err(_) => false,
    }
}

// Whether the list at a position, whose header is there, lies in an allocated cell of its own with all its entries.
fn in_own_cell(image: &[u8], position: usize, kind: Kind) -> bool
    requires { position + 8 ≤ length image.now }
    ensures { result ≡ own_cell image.now position (8 + entry_size (word_of kind) * count_at image.now position) }
{
    let number = half(image, position + 6);
    let size = kind.entry_size();
    let entries = (size as usize) * (number as usize);
    own_cell(image, position, 8 + entries)
}

// A refusal by the strict profile.
fn bar(reason: Reason, position: usize) -> Result<(), Refusal>
    ensures { verdict_paper result ≡ refused (by (number_of reason) position) }
{
    Err(Refusal { reason, position })
}

// What the strict profile asks of a list whose header is there, beyond that it can be read. `named` says whether an `ri` list names
// it.
fn strict_checks(
    image: &[u8],
    position: usize,
    minor: u32,
    named: bool,
    kind: Kind,
) -> Result<(), Refusal>
    requires { (position + 8 ≤ length image.now) × (word_of kind ≡ kind_at image.now position) }
    ensures { verdict_paper result ≡ strict_checks image.now minor named position }
{
    let barred = bars(minor, named, kind);
    let whole = in_own_cell(image, position, kind);
    if barred {
        return bar(Reason::NotPermitted, 0);
    }
    if !whole {
        return bar(Reason::BadSize, position);
    }
    Ok(())
}

// The list at a position, read strictly: as `read_list` reads it, of a kind that the minor version permits, no `ri` list that an `ri`
// list names, and inside an allocated cell of its own. `named` says whether an `ri` list names it.
pub fn strict_list(
    image: &[u8],
    position: usize,
    minor: u32,
    named: bool,
) -> Result<SubKeyList, Refusal>
    ensures { list_paper result ≡ strict_at image.now minor named position }
{
    let list = read_list(image, position)?;
    strict_checks(image, position, minor, named, list.kind())?;
    Ok(list)
}
