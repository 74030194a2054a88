// How values are written: each with a space before it.
use console::say;
use replay_case::Sums;
use sub_key_walk::{Counts, WalkRefusal};
use words::{Refusal, RoomRefusal};

pub fn refused(refusal: Refusal) {
    say!(" refused {} {}", refusal.reason.number(), refusal.position);
}

pub fn room_refused(refusal: RoomRefusal) {
    say!(
        " refused {} {} {}",
        refusal.reason.number(),
        refusal.position,
        refusal.places,
    );
}

pub fn walk_refused(refusal: WalkRefusal) {
    say!(
        " refused {} {} {} {} {} {}",
        refusal.reason.number(),
        refusal.position,
        refusal.lists,
        refusal.places,
        refusal.entries,
        refusal.dropped,
    );
}

// What a walk counts.
pub fn counted(counts: Counts) {
    say!(
        " {} {} {} {}",
        counts.kept,
        counts.lists,
        counts.entries,
        counts.dropped,
    );
}

pub fn summed(sums: Sums) {
    say!(" {} {}", sums.plain, sums.running);
}

// Two hex digits for each byte, `-` for none. (Both in one write: `{byte:02x}` writes the 0 of a byte below 16 by itself.)
pub fn hex(bytes: &[u8]) {
    say!(" ");
    if bytes.is_empty() {
        say!("-");
    }
    for byte in bytes {
        io::print_hex(1, *byte as u64, 2);
    }
}

// A row of bytes: its length and its sums.
pub fn row(bytes: &[u8]) {
    say!(" {}", bytes.len());
    summed(Sums::of_row(bytes));
}
