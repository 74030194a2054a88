// A cell at a position: whether it lies in the image, and whether it is large enough for what a reader wants of it.
#![tactic(auto)]

ghost use Rattle.std.specs.Prelude.{◌≡◌};
ghost use Rattle.words.specs.Paper.{refused, by, number_of};
ghost use Rattle.cell.specs.Cells.{size_at, cell_at, cell_paper};

use words::{Reason, Refusal};

// The bytes of a size word.
const SIZE_WORD: usize = 4;

// What a cell's size word says: its magnitude, which counts the size word itself, and whether the cell is allocated.
#[derive(Clone, Copy)]
pub struct CellSize {
    pub magnitude: u32,
    pub allocated: bool,
}

// A cell of at least so many bytes, or a cell that is too small.
#[derive(Clone, Copy)]
pub enum Fit {
    Held(CellSize),
    TooSmall(CellSize),
}

// The size word at a position.
fn size_at(image: &[u8], position: usize) -> CellSize
    ensures { result ≡ size_at image.now position }
{
    let word = words::i32_at(image, position);
    let magnitude = words::magnitude(word);
    CellSize {
        magnitude,
        allocated: word < 0,
    }
}

// A refusal of the cell at a position.
fn refuse(reason: Reason, position: usize) -> Result<Fit, Refusal>
    ensures { cell_paper result ≡ refused (by (number_of reason) position) }
{
    Err(Refusal { reason, position })
}

// The cell at a position, for a reader that needs the first `least` bytes of it, its size word among them.
pub fn cell_at(image: &[u8], position: usize, least: usize) -> Result<Fit, Refusal>
    ensures { cell_paper result ≡ cell_at image.now position least }
{
    if image.len() < position {
        return refuse(Reason::Outside, position);
    }
    let left = image.len() - position;
    if left < SIZE_WORD {
        return refuse(Reason::CutShort, position);
    }
    let cell = size_at(image, position);
    let size = cell.magnitude as usize;
    if left < size {
        return refuse(Reason::CutShort, position);
    }
    if size < least {
        return Ok(Fit::TooSmall(cell));
    }
    Ok(Fit::Held(cell))
}
