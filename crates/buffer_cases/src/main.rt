// Cases of a buffer that is filled with a pattern, one line each: what it is about, the numbers that stand there, and what `written` tells
// of it, the first two places being written: their two sums (none of a buffer that has fewer), and how many of the others hold the pattern.
// In the last two nothing is written and no number is told: `untouched` tells how many of all places hold the pattern. The pattern of
// `Hundreds` says nothing of its numbers; that of bytes, of places and of 64-bit places is known.
#![tactic(auto)]

use console::say;
use replay_case::Number;
use replay_stream::buffers;
use replay_stream::buffers::{KnownPattern, Pattern};

// A byte that counts in hundreds.
#[derive(Clone, Copy, PartialEq)]
struct Hundreds {
    x: u8,
}

impl Number for Hundreds {
    ghost number = { λ byte. byte.x };

    fn wide(self) -> u64 {
        self.x as u64
    }
}

impl Pattern for Hundreds {
    fn first() -> Hundreds {
        Hundreds { x: 100 }
    }

    fn next(self) -> Hundreds {
        Hundreds {
            x: self.x.wrapping_add(100),
        }
    }
}

fn tell<T: Pattern>(label: &str, row: &[T]) {
    say!("{label}");
    for x in row {
        say!(" {}", x.wide());
    }
    buffers::written(row, 2);
    say!("\n");
}

fn filled<T: Pattern>(label: &str, row: &mut [T]) {
    buffers::prefill(row);
    tell(label, row);
}

fn known<T: KnownPattern>(label: &str, row: &mut [T]) {
    buffers::prefill_known(row);
    tell(label, row);
}

// The third place with the number that the pattern has second.
fn overwritten(label: &str) {
    let mut row = [Hundreds { x: 0 }; 4];
    buffers::prefill(&mut row);
    row[2] = Hundreds::first().next();
    tell(label, &row);
}

// Nothing is written: how many places hold the pattern.
fn unwritten<T: Pattern>(label: &str, row: &mut [T]) {
    buffers::prefill(row);
    say!("{label}");
    buffers::untouched(row, 0);
    say!("\n");
}

fn main() {
    filled("hundreds", &mut [Hundreds { x: 0 }; 4]);
    overwritten("hundreds, one place overwritten");
    filled("bytes", &mut [0u8; 4]);
    known("bytes, known", &mut [0u8; 4]);
    known("places, known", &mut [0u32; 4]);
    known("64-bit places, known", &mut [0u64; 4]);
    known::<u8>("no byte, known", &mut []);
    unwritten("hundreds, none written", &mut [Hundreds { x: 0 }; 4]);
    unwritten("64-bit places, none written", &mut [0u64; 3]);
}
