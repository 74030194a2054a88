// Bins as they arrive (document 02, order 6): the check of bins and cells over parts that come one after another. What is known between
// two parts is a small record by value; no part is kept, and the inside of a cell is passed over by counting.
#![tactic(auto)]

ghost use Rattle.std.specs.Prelude.{◌≡◌, ◌+◌, ◌-◌, ◌≤◌, ◌<◌, length};
ghost use Rattle.words.specs.Paper.{number_of};
ghost use Rattle.bins_arriving.specs.Arriving.{arriving_paper, up_to, added, begun, refuse, too_short, settle, put, judge_bin, judge_cell, header, eat, passable, pass, feed, part_taken, ended};

use hive_bin::BinTotals;
use words::Reason;

// The bytes of a bin's header and of a cell's.
const BIN_HEADER: u32 = 32;

const CELL_HEADER: u32 = 4;

// A refusal as it is told and kept between two parts: by its number. A record that no call made is taken as it is, whatever number stands in
// it, also one of which `Reason` has no name.
#[derive(Clone, Copy)]
pub struct Numbered {
    pub number: u32,
    pub position: usize,
}

// What is known of the bins after some parts. Places count from the base.
#[derive(Clone, Copy)]
pub struct BinsSoFar {
    // where the bins begin in the image, and their size
    pub base: u32,
    pub size: u32,
    // the bytes that have come
    pub taken: u32,
    // where the header begins that is awaited, and where its bin ends: the same place where it is a bin's
    pub place: u32,
    pub over: u32,
    // what has come of that header, as far as it is judged
    pub head: [u8; 12],
    // the totals of what has been judged, or the refusal
    pub answer: Result<BinTotals, Numbered>,
}

// The totals of two stretches of bytes together. A sum stays at the largest number.
#[tactic(auto, unfolding(crate::specs::Arriving::up_to))]
fn sum(a: BinTotals, b: BinTotals) -> BinTotals
    ensures { result ≡ added a b }
{
    BinTotals {
        bins: a.bins.saturating_add(b.bins),
        allocated_cells: a.allocated_cells.saturating_add(b.allocated_cells),
        free_cells: a.free_cells.saturating_add(b.free_cells),
        allocated_bytes: a.allocated_bytes.saturating_add(b.allocated_bytes),
        free_bytes: a.free_bytes.saturating_add(b.free_bytes),
    }
}

impl BinsSoFar {
    // The refusal, in place of the totals.
    fn refused(self, reason: Reason, position: usize) -> BinsSoFar
        ensures { result ≡ refuse self (number_of reason) position }
    {
        BinsSoFar {
            answer: Err(Numbered {
                number: reason.number(),
                position,
            }),
            ..self
        }
    }

    // The image's position of the header that is awaited.
    fn position(self) -> usize
        ensures { result ≡ self.base + self.place }
    {
        self.base as usize + self.place as usize
    }

    // Whether a bin has ended, or none has come, and the rest is too short for a header.
    #[tactic(auto, unfolding(crate::specs::Arriving::too_short))]
    fn too_short(self) -> bool
        ensures { result ≡ too_short self }
    {
        let rest = self.size.saturating_sub(self.place);
        self.taken == self.place && self.place == self.over && 0 < rest && rest < BIN_HEADER
    }

    // The same record, or the refusal of a rest too short for a header.
    #[tactic(auto, unfolding(crate::specs::Arriving::settle))]
    fn settled(self) -> BinsSoFar
        ensures { result ≡ settle self }
    {
        if self.too_short() {
            return self.refused(Reason::BadBin, self.position());
        }
        self
    }

    // A byte of the header that is awaited.
    #[tactic(auto, unfolding(crate::specs::Arriving::put))]
    fn keep(self, byte: u8) -> BinsSoFar
        requires { self.taken < self.size }
        ensures { result ≡ put self byte }
    {
        let mut next = self;
        let at = self.taken.saturating_sub(self.place) as usize;
        next.taken = self.taken + 1;
        if at < next.head.len() {
            next.head[at] = byte;
        }
        next
    }

    // The bin whose header has come.
    #[tactic(auto, unfolding(crate::specs::Arriving::judge_bin, hive_bin::specs::Walk::header_size, hive_bin::specs::Walk::good_header))]
    fn bin(self, totals: BinTotals) -> BinsSoFar
        ensures { result ≡ judge_bin self totals }
    {
        let sign = words::u32_at(&self.head, 0);
        let own = words::u32_at(&self.head, 4);
        let bytes = words::u32_at(&self.head, 8);
        let left = self.size.saturating_sub(self.place);
        let Some(size) = hive_bin::header_size(sign, own, bytes, self.place as usize, left as usize)
        else {
            return self.refused(Reason::BadBin, self.position());
        };
        BinsSoFar {
            place: self.place + BIN_HEADER,
            over: self.place + size as u32,
            answer: Ok(sum(totals, BinTotals::one_bin())),
            ..self
        }
    }

    // The cell whose header has come.
    #[tactic(auto, unfolding(crate::specs::Arriving::judge_cell, hive_bin::specs::Walk::cell_size, hive_bin::specs::Walk::good_cell))]
    fn cell(self, totals: BinTotals) -> BinsSoFar
        ensures { result ≡ judge_cell self totals }
    {
        let word = words::i32_at(&self.head, 0);
        let left = self.over.saturating_sub(self.place);
        let Some(size) = hive_bin::cell_size(word, left as usize) else {
            return self.refused(Reason::BadCell, self.position());
        };
        BinsSoFar {
            place: self.place + size as u32,
            answer: Ok(sum(totals, hive_bin::cell_totals(word))),
            ..self
        }
    }

    // A bin or a cell is judged once its header is in.
    #[tactic(auto, unfolding(crate::specs::Arriving::header))]
    fn judged(self, totals: BinTotals) -> BinsSoFar
        ensures { result ≡ header self totals }
    {
        let have = self.taken.saturating_sub(self.place);
        if self.place == self.over {
            if have < BIN_HEADER {
                self
            } else {
                self.bin(totals)
            }
        } else if have < CELL_HEADER {
            self
        } else {
            self.cell(totals)
        }
    }

    // One byte that belongs to a header.
    #[tactic(auto, unfolding(crate::specs::Arriving::eat))]
    fn next_byte(self, byte: u8) -> BinsSoFar
        requires { (self.taken < self.size) × (self.place ≤ self.taken) }
        ensures { result ≡ eat self byte }
    {
        match self.answer {
            Err(_) => self,
            Ok(totals) => self.keep(byte).judged(totals).settled(),
        }
    }

    // How many of `room` bytes are passed over: those inside a cell, and after a refusal all.
    #[tactic(auto, unfolding(crate::specs::Arriving::passable))]
    fn to_pass(self, room: usize) -> usize
        ensures { result ≡ passable self room }
    {
        match self.answer {
            Err(_) => room,
            Ok(_) => room.min(self.place.saturating_sub(self.taken) as usize),
        }
    }

    // So many bytes are passed over.
    #[tactic(auto, unfolding(crate::specs::Arriving::pass))]
    fn pass_over(self, bytes: usize) -> BinsSoFar
        requires { self.taken + bytes ≤ self.size }
        ensures { result ≡ pass self bytes }
    {
        match self.answer {
            Err(_) => self,
            Ok(_) => BinsSoFar {
                taken: self.taken + bytes as u32,
                ..self
            }
            .settled(),
        }
    }

    // The bytes of a part that does not exceed what remains.
    fn take_bytes(self, part: &[u8]) -> BinsSoFar
        requires { length part.now ≤ self.size - self.taken }
        ensures { result ≡ feed self part.now }
    {
        let mut known = self;
        let mut rest = part;
        while let Some(byte) = rest.first() {
            let bytes = known.to_pass(rest.len());
            if bytes == 0 {
                known = known.next_byte(*byte);
                rest = &rest[1..];
            } else {
                known = known.pass_over(bytes);
                rest = &rest[bytes..];
            }
        }
        known
    }
}

// Before the first part.
pub fn begin(base: u32, size: u32) -> BinsSoFar
    ensures { result ≡ begun base size }
{
    BinsSoFar {
        base,
        size,
        taken: 0,
        place: 0,
        over: 0,
        head: [0; 12],
        answer: Ok(BinTotals::default()),
    }
}

// The next part, of any length: the bins so far with it.
#[tactic(auto, unfolding(crate::specs::Arriving::part_taken))]
pub fn take_part(state: BinsSoFar, part: &[u8]) -> BinsSoFar
    ensures { result ≡ part_taken state part.now }
{
    match state.answer {
        Err(_) => state,
        Ok(_) => {
            let remaining = state.size.saturating_sub(state.taken) as usize;
            if remaining < part.len() {
                return state.refused(Reason::PastEnd, 0);
            }
            state.settled().take_bytes(part)
        }
    }
}

// The end is declared: the totals, or the refusal.
#[tactic(auto, unfolding(crate::specs::Arriving::ended))]
pub fn finish(state: BinsSoFar) -> Result<BinTotals, Numbered>
    ensures { arriving_paper result ≡ ended state }
{
    let totals = state.answer?;
    if state.taken < state.size {
        return Err(Numbered {
            number: Reason::CutShort.number(),
            position: state.base as usize,
        });
    }
    Ok(totals)
}
