// Bins and cells: the bins of a hive checked, each with its cells, and totalled; and a step from cell to cell of them.
#![tactic(auto)]

ghost use Rattle.std.specs.Prelude.{◌≡◌, ◌+◌, ◌-◌, ◌≤◌, length};
ghost use Rattle.hive_bin.specs.Walk.{row, cell_row, cell_size, header_size, bin_size, sized, bins_in};
ghost use Rattle.hive_bin.specs.Totals.{one_bin, cell_totals, together, Room, answer_of, bins_of};
ghost use Rattle.hive_bin.specs.Answers.{bins_paper};
ghost use Rattle.hive_bin.specs.Steps.{next_of, left_in, cell_in, cell_paper, at_end, step_at, step_paper};

use words::{Reason, Refusal};

// How many bins there are, how many cells of each kind, and the bytes of these cells, their size words included.
#[derive(Clone, Copy, Default)]
pub struct BinTotals {
    pub bins: usize,
    pub allocated_cells: usize,
    pub free_cells: usize,
    pub allocated_bytes: usize,
    pub free_bytes: usize,
}

// Where a reader of cells stands: the start of a bin, and a place in it. The place of the bin's own start stands for its first cell;
// where the bins end there, for their end. A reader begins at 0, 0.
#[derive(Clone, Copy)]
pub struct Spot {
    pub bin: usize,
    pub place: usize,
}

// A cell: its place, its size word, which is negative where it is allocated, and where the next one stands.
#[derive(Clone, Copy)]
pub struct CellStep {
    pub place: usize,
    pub size: i32,
    pub next: Spot,
}

// The word of the bytes "hbin", and the bytes of a bin before its cells.
const HBIN: u32 = 0x6E69_6268;

const HEADER: usize = 32;

impl BinTotals {
    // Those of a bin without its cells.
    pub fn one_bin() -> BinTotals
        ensures { result ≡ one_bin }
    {
        BinTotals {
            bins: 1,
            ..BinTotals::default()
        }
    }

    // Those of two stretches of bytes together.
    fn plus(self, other: BinTotals) -> BinTotals
        requires { Room self other }
        ensures { result ≡ together self other }
    {
        BinTotals {
            bins: self.bins + other.bins,
            allocated_cells: self.allocated_cells + other.allocated_cells,
            free_cells: self.free_cells + other.free_cells,
            allocated_bytes: self.allocated_bytes + other.allocated_bytes,
            free_bytes: self.free_bytes + other.free_bytes,
        }
    }
}

// Those of a cell, by its size word: where that is negative the cell is allocated.
#[tactic(auto, unfolding(crate::specs::Totals::cell_totals, crate::specs::Totals::allocated_one, crate::specs::Totals::free_one, crate::specs::Totals::allocated_size, crate::specs::Totals::free_size, crate::specs::Totals::negative))]
pub fn cell_totals(word: i32) -> BinTotals
    ensures { result ≡ cell_totals word }
{
    let size = words::magnitude(word) as usize;
    if word < 0 {
        BinTotals {
            allocated_cells: 1,
            allocated_bytes: size,
            ..BinTotals::default()
        }
    } else {
        BinTotals {
            free_cells: 1,
            free_bytes: size,
            ..BinTotals::default()
        }
    }
}

// The size of a cell by its size word, with `left` bytes to the end of its bin; none where the word is no cell's, as 0 itself.
#[tactic(auto, unfolding(crate::specs::Walk::cell_size, crate::specs::Walk::good_cell))]
pub fn cell_size(word: i32, left: usize) -> Option<usize>
    ensures { result ≡ sized (cell_size word left) }
{
    let size = words::magnitude(word) as usize;
    let good = size != 0 && size % 8 == 0 && size <= left;
    good.then_some(size)
}

// The cells that fill the `left` bytes from `at` on.
fn check_cells(bins: &[u8], at: usize, left: usize) -> Result<BinTotals, Refusal>
    requires { at + left ≤ length bins.now }
    ensures { bins_paper result ≡ answer_of (row (cell_row bins.now) at left) }
{
    let mut here = at;
    let mut rest = left;
    let mut totals = BinTotals::default();
    while 0 < rest {
        let word = words::i32_at(bins, here);
        let Some(size) = cell_size(word, rest) else {
            return Err(Refusal {
                reason: Reason::BadCell,
                position: here,
            });
        };
        totals = totals.plus(cell_totals(word));
        here += size;
        rest -= size;
    }
    Ok(totals)
}

// The size of the bin that begins at a place, by the three words of its header, with `left` bytes to the end of the bins; none where the
// words are no bin's there, also where its size is 0.
#[tactic(auto, unfolding(crate::specs::Walk::header_size, crate::specs::Walk::good_header))]
pub fn header_size(sign: u32, offset: u32, bytes: u32, at: usize, left: usize) -> Option<usize>
    ensures { result ≡ sized (header_size sign offset bytes at left) }
{
    let own = offset as usize;
    let whole = bytes as usize;
    let good = HEADER <= left
        && sign == HBIN
        && own == at
        && whole != 0
        && whole % 4096 == 0
        && whole <= left;
    good.then_some(whole)
}

// The size of the bin at a place, with `left` bytes to the end of the bins; none where no bin stands there.
#[tactic(auto, unfolding(crate::specs::Walk::bin_size, crate::specs::Walk::header_size, crate::specs::Walk::good_header))]
fn bin_size(bins: &[u8], at: usize, left: usize) -> Option<usize>
    requires { left ≤ length bins.now - at }
    ensures { result ≡ sized (bin_size bins.now at left) }
{
    if left < HEADER {
        return None;
    }
    let sign = words::u32_at(bins, at);
    let own = words::u32_at(bins, at + 4);
    let bytes = words::u32_at(bins, at + 8);
    header_size(sign, own, bytes, at, left)
}

// The bins that a slice consists of, each with its cells before the next. Places count from its start.
fn check_row(bins: &[u8]) -> Result<BinTotals, Refusal>
    ensures { bins_paper result ≡ answer_of (bins_in bins.now) }
{
    let mut at: usize = 0;
    let mut left = bins.len();
    let mut totals = BinTotals::default();
    while 0 < left {
        let Some(size) = bin_size(bins, at, left) else {
            return Err(Refusal {
                reason: Reason::BadBin,
                position: at,
            });
        };
        let cells = check_cells(bins, at + HEADER, size - HEADER)?;
        totals = totals.plus(BinTotals::one_bin().plus(cells));
        at += size;
        left -= size;
    }
    Ok(totals)
}

// The bins of an image, `size` bytes from `base` on, and their cells.
pub fn check_bins(image: &[u8], base: u32, size: u32) -> Result<BinTotals, Refusal>
    ensures { bins_paper result ≡ bins_of image.now base size }
{
    let start = base as usize;
    let bytes = size as usize;
    if image.len() < start + bytes {
        return Err(Refusal {
            reason: Reason::CutShort,
            position: start,
        });
    }
    check_row(words::part(image, start, bytes)).map_err(|refusal| Refusal {
        position: start + refusal.position,
        ..refusal
    })
}

// Where a reader stands next, behind a cell that ends at `place`, in the bin from `bin` to `over`.
#[tactic(auto, unfolding(crate::specs::Steps::next_of))]
fn next_of(bin: usize, over: usize, place: usize) -> Spot
    ensures { result ≡ next_of bin over place }
{
    let bin = if place == over { over } else { bin };
    Spot { bin, place }
}

// The size of the cell at a place of the bin from `bin` to `over`, by its size word; none where no cell stands there, behind the header.
#[tactic(auto, unfolding(crate::specs::Steps::left_in, crate::specs::Walk::cell_size, crate::specs::Walk::good_cell))]
fn size_in(word: i32, bin: usize, over: usize, place: usize) -> Option<usize>
    requires { bin + 32 ≤ over }
    ensures { result ≡ sized (cell_size word (left_in bin over place)) }
{
    if place < bin + HEADER {
        return None;
    }
    cell_size(word, over.saturating_sub(place))
}

// The cell at a place of the bin from `bin` to `over`.
fn cell_in(bins: &[u8], bin: usize, over: usize, place: usize) -> Result<CellStep, Refusal>
    requires { bin + 32 ≤ over }
    ensures { cell_paper result ≡ cell_in bins.now bin over place }
{
    let word = words::i32_at(bins, place);
    let Some(size) = size_in(word, bin, over, place) else {
        return Err(Refusal {
            reason: Reason::BadCell,
            position: place,
        });
    };
    let next = next_of(bin, over, place + size);
    Ok(CellStep {
        place,
        size: word,
        next,
    })
}

// Whether the bins end at a spot.
#[tactic(auto, unfolding(crate::specs::Steps::at_end))]
fn at_end(bins: &[u8], spot: Spot) -> bool
    ensures { result ≡ at_end bins.now spot }
{
    spot.place == spot.bin && spot.bin == bins.len()
}

// The size of the bin at any place, with the bytes behind it in the bins; none where no bin stands there. A place past the bins is told
// apart by a test, and not by a difference that stops at 0: the header's words are then read with fewer tests at each step.
#[tactic(auto, unfolding(crate::specs::Walk::bin_size, crate::specs::Walk::header_size, crate::specs::Walk::good_header))]
fn bin_size_at(bins: &[u8], bin: usize) -> Option<usize>
    ensures { result ≡ sized (bin_size bins.now bin (length bins.now - bin)) }
{
    if bins.len() < bin {
        return None;
    }
    bin_size(bins, bin, bins.len() - bin)
}

// One step of a reader of cells, from any spot of any bytes: the cell there and the next spot, the end, or the fault that the check
// of these bytes gives there. Places count from their start.
pub fn step_at(bins: &[u8], spot: Spot) -> Result<Option<CellStep>, Refusal>
    ensures { step_paper result ≡ step_at bins.now spot }
{
    let bin = spot.bin;
    if at_end(bins, spot) {
        return Ok(None);
    }
    let Some(size) = bin_size_at(bins, bin) else {
        return Err(Refusal {
            reason: Reason::BadBin,
            position: bin,
        });
    };
    let place = if spot.place == bin {
        bin + HEADER
    } else {
        spot.place
    };
    let cell = cell_in(bins, bin, bin + size, place)?;
    Ok(Some(cell))
}
