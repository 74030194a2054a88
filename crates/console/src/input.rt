// An input read in however many pieces.
ghost use Rattle.std.specs.Prelude.{IfOk};
ghost use Rattle.io.specs.Counts.{IsPrefixLen};

use std::io::{Error, Read};

// Reads until the buffer is full or the input ends: how many bytes came, or how a read failed.
pub fn read_input<R: Read>(input: &mut R, buffer: &mut [u8]) -> Result<usize, Error>
    ensures { IfOk result (λ n. IsPrefixLen n buffer.new) }
{
    let mut bytes: usize = 0;
    while bytes < buffer.len() {
        let got = input.read(&mut buffer[bytes..])?;
        if got == 0 {
            break;
        }
        bytes += got;
    }
    Ok(bytes)
}

// The same, where a read that fails is the end of the input.
pub fn read_full<R: Read>(input: &mut R, buffer: &mut [u8]) -> usize
    ensures { IsPrefixLen result buffer.new }
{
    let mut bytes: usize = 0;
    while bytes < buffer.len() {
        let Ok(got) = input.read(&mut buffer[bytes..]) else {
            break;
        };
        if got == 0 {
            break;
        }
        bytes += got;
    }
    bytes
}
