// A reader that stands on one cell of the lent bins and tells the cell and the next place (document 02, order 4). It is a struct of the
// bins and a spot, and each function is thin: the work is `hive_bin::step_at`.
#![tactic(auto)]

ghost use Rattle.std.specs.Prelude.{◌≡◌};
ghost use Rattle.hive_bin.specs.Steps.{step_at, step_paper};

use hive_bin::{CellStep, Spot};
use words::Refusal;

// The bins, and where in them the reader stands.
#[derive(Clone, Copy)]
pub struct CellReader<'a> {
    pub bins: &'a [u8],
    pub spot: Spot,
}

// A reader that stands at a spot of the bins.
pub fn stand<'a>(bins: &'a [u8], spot: Spot) -> CellReader<'a>
    ensures { (result.bins ≡ bins.entry) × (result.spot ≡ spot) }
{
    CellReader { bins, spot }
}

// The cell that a reader stands on, and the next place.
pub fn step<'a>(reader: CellReader<'a>) -> Result<Option<CellStep>, Refusal>
    ensures { step_paper result ≡ step_at reader.entry.bins.now reader.entry.spot }
{
    hive_bin::step_at(reader.bins, reader.spot)
}

// The same for a caller that holds the bins and the spot.
pub fn tell(bins: &[u8], spot: Spot) -> Result<Option<CellStep>, Refusal>
    ensures { step_paper result ≡ step_at bins.now spot }
{
    step(stand(bins, spot))
}
