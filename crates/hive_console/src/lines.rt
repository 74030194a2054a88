// Lines that several listings print.
use base_block::BaseBlock;
use console::Stdout;
use hive_bin::BinTotals;
use std::fmt;
use std::fmt::{Display, Write};

pub fn base_line(out: &mut Stdout, b: BaseBlock) -> fmt::Result {
    writeln!(
        out,
        "base {} {} {} {} {} {} {} {:08x} {:08x}",
        b.primary_sequence_number,
        b.secondary_sequence_number,
        b.major_version,
        b.minor_version,
        b.file_type_raw,
        b.root_cell_offset,
        b.hive_bins_data_size,
        b.checksum,
        b.computed_checksum,
    )
}

pub fn bins_line(out: &mut Stdout, t: BinTotals) -> fmt::Result {
    writeln!(
        out,
        "bins {} {} {} {} {}",
        t.bins, t.allocated_cells, t.free_cells, t.allocated_bytes, t.free_bytes,
    )
}

// The first `n` positions of a buffer, one a line.
pub fn position_lines<T: Display>(out: &mut Stdout, positions: &[T], n: usize) -> fmt::Result {
    for position in positions.iter().take(n) {
        writeln!(out, "{position}")?;
    }
    Ok(())
}
