// Big data cells.
#![tactic(auto)]

ghost use Rattle.std.specs.Prelude.{◌≡◌};
ghost use Rattle.cell_big_data.specs.Big.{is_big_data_block};

// Whether bytes 4 and 5 are there and are `db`.
#[tactic(auto, unfolding(crate::specs::Big::is_big_data_block))]
pub fn is_big_data_block(cell: &[u8]) -> bool
    ensures { result ≡ is_big_data_block cell.now }
{
    matches!(cell, [_, _, _, _, b'd', b'b', ..])
}
