// What the programs write with and read with: standard output and standard error as writers of text, and an input read to its end.
#![tactic(auto)]

ghost use Rattle.std.specs.Prelude.{◌≡◌, true};

pub mod input;

use std::fmt;
use std::fmt::{Display, Write};

// Standard output, and whether all that was written so far was taken. What is not taken is told at the end: what comes behind it is still
// tried, so that writing does not fail.
#[derive(Drop)]
pub struct Stdout {
    whole: bool,
}

impl Stdout {
    // Nothing is written yet.
    pub fn new() -> Stdout
        ensures { result.whole ≡ true }
    {
        Stdout { whole: true }
    }

    // Bytes as they are, text or none. What was not taken before is not forgotten.
    pub fn bytes(&mut self, row: &[u8])
        ensures { self.new.whole ≡ true → self.old.whole ≡ true }
    {
        if !io::write_all(1, row) {
            self.whole = false;
        }
    }

    // Whether all was taken.
    pub fn is_whole(&self) -> bool
        ensures { result ≡ self.now.whole }
    {
        self.whole
    }
}

impl Write for Stdout {
    fn write_str(&mut self, text: &str) -> fmt::Result {
        self.bytes(text.as_bytes());
        Ok(())
    }
}

// Standard error.
#[derive(Clone, Copy)]
pub struct Stderr;

impl Write for Stderr {
    fn write_str(&mut self, text: &str) -> fmt::Result {
        taken(io::write_all(2, text.as_bytes()))
    }
}

fn taken(all: bool) -> fmt::Result {
    if all { Ok(()) } else { Err(fmt::Error) }
}

// Bytes on standard output as they are, text or none.
pub fn bytes(row: &[u8]) -> fmt::Result {
    taken(io::write_all(1, row))
}

// Text on standard output. What is not taken is not told: the output that is wanted is stored.
pub fn say<D: Display + Drop>(text: D) {
    let _ = Stdout::new().write(text);
}

#[macro_export]
macro_rules! say {
    ($($text:tt)*) => {
        $crate::say(format_args!($($text)*))
    };
}

// Bytes in the same way.
pub fn say_bytes(row: &[u8]) {
    let _ = bytes(row);
}
