// The listing of bins alone, for a hive of any size: base block and bins as they arrive (document 02, order 6), up to the first refusal.
// The input is read into one page of 4 KiB, piece by piece, and nothing of a piece is kept but what `bins_arriving` knows after it.
//
// Where the input is cut short inside the bins, the listing of document 01 refuses by 8 before it looks at a bin. Here the bins are judged
// as they come, as order 6 has it: a bin or cell at fault before the cut is refused by 10 or 11, and 8 is given where none is.
use bins_arriving::BinsSoFar;
use console::Stdout;
use console::input::read_input;
use hive_console::lines;
use hive_console::stop::Stop;
use std::io::{Error, Read};

// Where the bins begin.
const BASE: u32 = 4096;

// Reads the bins, each piece a part, until all of them have come, a part is refused, the input ends or a read fails. No more is asked for
// than remains of them: so no part is refused by 18, and what stands behind the bins is not read.
fn read_bins<R: Read>(input: &mut R, page: &mut [u8], size: u32) -> Result<BinsSoFar, Error> {
    let mut state = bins_arriving::begin(BASE, size);
    let mut remaining = size as usize;
    while 0 < remaining {
        let most = remaining.min(page.len());
        let got = input.read(&mut page[..most])?;
        if got == 0 {
            break;
        }
        state = bins_arriving::take_part(state, &page[..got]);
        if state.answer.is_err() {
            break;
        }
        remaining -= got;
    }
    Ok(state)
}

// Lists the bins of what an input delivers. The lines are printed when the bins are read, so that nothing is printed of an input that
// cannot be read.
pub fn list<R: Read>(input: &mut R, out: &mut Stdout) -> Result<(), Stop> {
    let mut page = io::buffer();
    let n = read_input(input, &mut page)?;
    let block = base_block::read_base_block(&page[..n])?;
    let state = read_bins(input, &mut page, block.hive_bins_data_size)?;
    lines::base_line(out, block)?;
    let totals = bins_arriving::finish(state).map_err(|refusal| Stop::Refused(refusal.number))?;
    lines::bins_line(out, totals)?;
    Ok(())
}
