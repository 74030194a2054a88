// The listing of deleted keys: base block, then the keys in the bins, up to the first refusal. Behind the base block's line one with their
// number, and then the position of each in the file.
use console::Stdout;
use hive_console::input::Listing;
use hive_console::lines;
use hive_console::stop::Stop;
use std::fmt::Write;

// Where the bins begin.
const BASE: u32 = 4096;

#[derive(Clone, Copy)]
pub struct Deleted;

// A key record takes 80 bytes or more, so that 65,536 bytes have fewer than 1,024 of them.
impl Listing for Deleted {
    fn list(&self, image: &[u8], out: &mut Stdout) -> Result<(), Stop> {
        let mut keys = [0u64; 1024];
        let block = base_block::read_base_block(image)?;
        lines::base_line(out, block)?;
        let n = deleted_keys::deleted_keys(image, BASE, block.hive_bins_data_size, &mut keys)?;
        writeln!(out, "deleted {n}")?;
        lines::position_lines(out, &keys, n)?;
        Ok(())
    }
}
