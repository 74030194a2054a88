// A hive of at most 65,536 bytes, read and listed.
ghost use Rattle.std.specs.Prelude.{◌≡◌, ◌⊎◌, IfOk, IfErr};
ghost use Rattle.io.specs.Counts.{IsPrefixLen};
ghost use Rattle.words.specs.Refusals.{TOO_LARGE};

use crate::stop;
use crate::stop::Stop;
use console::Stdout;
use console::input::read_input;
use std::io::Read;
use words::Reason;

// Reads a file, in however many pieces, into an image that takes the whole of it, and looks for one byte more.
pub fn read_hive<R: Read>(input: &mut R, image: &mut [u8]) -> Result<usize, Stop>
    ensures counted { IfOk result (λ n. IsPrefixLen n image.new) }
    ensures stopped { IfErr result (λ stop. (stop ≡ Stop.Unread) ⊎ (stop ≡ Stop.Refused TOO_LARGE)) }
{
    let bytes = read_input(input, image)?;
    if bytes == image.len() {
        let more = read_input(input, &mut [0u8; 1])?;
        if 0 < more {
            return Err(Stop::Refused(Reason::TooLarge.number()));
        }
    }
    Ok(bytes)
}

// What is listed of a hive. (A trait, as it may be called with any image: a function that is handed over owes that.)
pub trait Listing {
    fn list(&self, image: &[u8], out: &mut Stdout) -> Result<(), Stop>;
}

// Lists what an input delivers, and tells what stops the listing.
pub fn list_input<R: Read, L: Listing>(input: &mut R, listing: &L) {
    let mut image = io::large_buffer();
    let mut out = Stdout::new();
    let outcome = match read_hive(input, &mut image) {
        Ok(bytes) => listing.list(&image[..bytes], &mut out),
        Err(stop) => Err(stop),
    };
    stop::told(outcome, out);
}
