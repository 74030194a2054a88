// A listing checked against a hive, or written from it: base block, bins, key record and walk in turn, up to the first refusal. What can be
// read, and what a listing is, is decided in the libraries; here stand the order of the steps and the form of the lines.
use cell_key_node::KeyNode;
use console::Stdout;
use hive_console::stop::Stop;
use root_listing::{BASE, BUDGET};
use std::fmt::Write;
use words::Refusal;

// Which key of a hive: the root, or the one whose record stands at a position.
#[derive(Clone, Copy)]
pub enum Which {
    Root,
    At(usize),
}

// The key record, in a hive whose base block and bins are read.
pub fn key_of(image: &[u8], which: Which) -> Result<KeyNode, Refusal> {
    let block = base_block::read_base_block(image)?;
    hive_bin::check_bins(image, BASE, block.hive_bins_data_size)?;
    match which {
        Which::Root => root_listing::root_record(image, block.root_cell_offset),
        Which::At(position) => cell_key_node::read_key_node(image, position, BASE),
    }
}

pub fn check(image: &[u8], key: KeyNode, listing: &[u8], out: &mut Stdout) -> Result<(), Stop> {
    let c = sub_key_listing::check_listing(image, key, BUDGET, listing).map_err(|f| f.reason)?;
    writeln!(
        out,
        "accepted {} {} {} {}",
        c.kept, c.lists, c.entries, c.dropped,
    )?;
    Ok(())
}

// A line, and behind it the listing: at most 65,536 bytes.
pub fn write(image: &[u8], key: KeyNode, out: &mut Stdout) -> Result<(), Stop> {
    let mut listing = io::large_buffer();
    let w = sub_key_listing::write_listing(image, key, BUDGET, &mut listing).map_err(|f| f.reason)?;
    writeln!(
        out,
        "written {} {} {} {}",
        w.kept, w.lists, w.entries, w.dropped,
    )?;
    out.bytes(words::part(&listing, 0, w.bytes as usize));
    Ok(())
}
