// The listing of a hive: base block, bins, root key and walk in turn, up to the first refusal. What can be read is decided in the
// libraries; here stand the order of the steps and the form of the lines.
#![tactic(auto)]

ghost use Rattle.std.specs.Prelude.{◌≡◌};
ghost use Rattle.cell_key_node.specs.Key.{key_paper};
ghost use Rattle.root_listing.specs.Root.{root_at};

use cell_key_node::KeyNode;
use console::Stdout;
use hive_console::input::Listing;
use hive_console::lines;
use hive_console::stop::Stop;
use std::fmt::Write;
use words::{Reason, Refusal};

// Where the bins begin, and the most lists that the walk reads.
pub const BASE: u32 = 4096;

pub const BUDGET: u32 = 1024;

// The root's record, at an offset behind the base.
pub fn root_record(image: &[u8], offset: i32) -> Result<KeyNode, Refusal>
    ensures { key_paper result ≡ root_at image.now offset }
{
    if offset < 0 {
        return Err(Refusal {
            reason: Reason::Outside,
            position: 0,
        });
    }
    let position = offset as usize + BASE as usize;
    cell_key_node::read_key_node(image, position, BASE)
}

fn list_keys(image: &[u8], root: KeyNode, out: &mut Stdout) -> Result<(), Stop> {
    let mut keys = [0u32; 4096];
    let c = key_in_place::sub_keys_of(image, root, BUDGET, &mut keys).map_err(|f| f.reason)?;
    writeln!(
        out,
        "keys {} {} {} {}",
        c.kept, c.lists, c.entries, c.dropped,
    )?;
    lines::position_lines(out, &keys, c.kept as usize)?;
    Ok(())
}

#[derive(Clone, Copy)]
pub struct Root;

impl Listing for Root {
    fn list(&self, image: &[u8], out: &mut Stdout) -> Result<(), Stop> {
        let block = base_block::read_base_block(image)?;
        lines::base_line(out, block)?;
        let totals = hive_bin::check_bins(image, BASE, block.hive_bins_data_size)?;
        lines::bins_line(out, totals)?;
        list_keys(image, root_record(image, block.root_cell_offset)?, out)
    }
}
