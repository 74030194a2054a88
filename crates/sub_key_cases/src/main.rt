// Walks small images and writes a line for each: what is tried, then `read` with offsets kept, lists, entries and those dropped, or
// `refused` with number, position, lists, places, entries and those dropped, and behind `|` every place of the buffer, which held 7 in
// each before.
#![tactic(auto)]

ghost use Rattle.std.specs.Prelude.{◌≤◌};

use console::say;
use sub_key_walk::{Counts, WalkRefusal};

fn answer(label: &str, answer: Result<Counts, WalkRefusal>) {
    match answer {
        Ok(c) => say!(
            "{label}: read {} {} {} {}",
            c.kept,
            c.lists,
            c.entries,
            c.dropped,
        ),
        Err(f) => say!(
            "{label}: refused {} {} {} {} {} {}",
            f.reason.number(),
            f.position,
            f.lists,
            f.places,
            f.entries,
            f.dropped,
        ),
    }
}

fn places(out: &[u32]) {
    say!(" |");
    for place in out {
        say!(" {place}");
    }
    say!("\n");
}

// A walk from a list at an offset into a buffer, with its line.
fn walk(label: &str, image: &[u8], base: u32, count: u32, list: u32, budget: u32, out: &mut [u32]) {
    answer(
        label,
        sub_key_walk::sub_keys(image, base, count, list, budget, out),
    );
    places(out);
}

// The same into a buffer of so many places.
fn case(label: &str, image: &[u8], base: u32, count: u32, list: u32, budget: u32, room: usize)
    requires { room ≤ 5 }
{
    let mut buffer = [7u32; 5];
    walk(label, image, base, count, list, budget, &mut buffer[..room]);
}

// `li` at 8 with the entries 16 and 32. Base 3 and offset 5 lead to it.
fn record_numbers() {
    let li =
        b"\x00\x00\x00\x00\x00\x00\x00\x00\xe8\xff\xff\xffli\x02\x00\x10\x00\x00\x00\x20\x00\x00\x00";
    case("budget 65537", li, 3, 2, 5, 65537, 3);
    case("budget 65536", li, 3, 2, 5, 65536, 3);
    case("budget 1", li, 3, 2, 5, 1, 3);
    case("budget 0", li, 3, 2, 5, 0, 3);
    case("budget 65537, count 1048577", li, 3, 1048577, 5, 65537, 3);
    case("budget 65537, count 0", li, 3, 0, 5, 65537, 3);
    case("count 1048577", li, 3, 1048577, 5, 1024, 3);
    case("count 1048577, budget 0", li, 3, 1048577, 5, 0, 3);
    case("count 1048576", li, 3, 1048576, 5, 1024, 3);
    case("count 1", li, 3, 1, 5, 1024, 3);
    case("count 0", li, 3, 0, 5, 1024, 3);
    case(
        "count 0, budget 0, list outside",
        li,
        3,
        0,
        4294967295,
        0,
        3,
    );
}

// One list: where it stands, its header, its kind and its entries.
fn positions() {
    let li = b"\x00\x00\x00\x00li\x02\x00\x10\x00\x00\x00\x20\x00\x00\x00";
    let seven = b"\x00\x00\x00\x00li\x02";
    let none = b"";
    case("list at the image's length plus 1", li, 0, 1, 17, 1024, 2);
    case("list at the image's length", li, 0, 1, 16, 1024, 2);
    case("7 bytes left", li, 4, 1, 5, 1024, 2);
    case("8 bytes left, no kind", li, 4, 1, 4, 1024, 2);
    case("16 bytes left", li, 0, 1, 0, 1024, 2);
    case("image of 7 bytes", seven, 0, 1, 0, 1024, 2);
    case("empty image, list at 0", none, 0, 1, 0, 1024, 2);
    case("empty image, list at 1", none, 1, 1, 0, 1024, 2);
    case(
        "greatest base and offset",
        li,
        4294967295,
        1,
        4294967295,
        1024,
        2,
    );
}

fn kinds() {
    let lf = b"\xf0\xff\xff\xfflf\x01\x00\x10\x00\x00\x00hint";
    let lh = b"\xf0\xff\xff\xfflh\x01\x00\x10\x00\x00\x00hash";
    let li = b"\xf0\xff\xff\xffli\x01\x00\x10\x00\x00\x00";
    let lx = b"\xf0\xff\xff\xfflx\x01\x00\x10\x00\x00\x00hint";
    let il = b"\xf0\xff\xff\xffil\x01\x00\x10\x00\x00\x00hint";
    let upper = b"\xf0\xff\xff\xffLI\x01\x00\x10\x00\x00\x00hint";
    case("lf", lf, 0, 1, 0, 1024, 2);
    case("lh", lh, 0, 1, 0, 1024, 2);
    case("li", li, 0, 1, 0, 1024, 2);
    case("lx", lx, 0, 1, 0, 1024, 2);
    case("il", il, 0, 1, 0, 1024, 2);
    case("LI", upper, 0, 1, 0, 1024, 2);
    case("lx, budget 0", lx, 0, 1, 0, 0, 2);
}

fn entries() {
    let li = b"\x00\x00\x00\x00li\x02\x00\x10\x00\x00\x00\x20\x00\x00\x00";
    let li_cut = b"\x00\x00\x00\x00li\x02\x00\x10\x00\x00\x00\x20\x00\x00";
    let li_none = b"\x00\x00\x00\x00li\x00\x00";
    let li_three = b"\x00\x00\x00\x00li\x03\x00\x10\x00\x00\x00\x20\x00\x00\x00";
    let lf = b"\x00\x00\x00\x00lf\x01\x00\x10\x00\x00\x00hint";
    let lf_cut = b"\x00\x00\x00\x00lf\x01\x00\x10\x00\x00\x00hin";
    let lh_cut = b"\x00\x00\x00\x00lh\x01\x00\x10\x00\x00\x00has";
    let ri_none = b"\x00\x00\x00\x00ri\x00\x00";
    let ri_cut = b"\x00\x00\x00\x00ri\x01\x00\x00\x00\x00";
    let small = b"\xf8\xff\xff\xffli\x02\x00\x10\x00\x00\x00\x20\x00\x00\x00";
    let large = b"\x00\x00\x00\x80li\x02\x00\x10\x00\x00\x00\x20\x00\x00\x00";
    let free = b"\x01\x00\x00\x00li\x02\x00\x10\x00\x00\x00\x20\x00\x00\x00";
    case("li of 2 entries in 16 bytes", li, 0, 1, 0, 1024, 3);
    case("li of 2 entries in 15 bytes", li_cut, 0, 1, 0, 1024, 3);
    case("li of 3 entries in 16 bytes", li_three, 0, 1, 0, 1024, 3);
    case("li of 0 entries in 8 bytes", li_none, 0, 1, 0, 1024, 3);
    case("lf of 1 entry in 16 bytes", lf, 0, 1, 0, 1024, 3);
    case("lf of 1 entry in 15 bytes", lf_cut, 0, 1, 0, 1024, 3);
    case("lh of 1 entry in 15 bytes", lh_cut, 0, 1, 0, 1024, 3);
    case("ri of 0 entries in 8 bytes", ri_none, 0, 1, 0, 1024, 3);
    case("ri of 1 entry in 11 bytes", ri_cut, 0, 1, 0, 1024, 3);
    case("size word for the header only", small, 0, 1, 0, 1024, 3);
    case("size word past the image", large, 0, 1, 0, 1024, 3);
    case("size word 1", free, 0, 1, 0, 1024, 3);
}

// Entries FFFFFFEF and FFFFFFF0, in lists at 16.
fn sums() {
    let lh =
        b"\x00\x00\x00\x00\x00\x00\x00\x00\x00\x00\x00\x00\x00\x00\x00\x00\x00\x00\x00\x00lh\x02\x00\xef\xff\xff\xff\x01\x01\x01\x01\xf0\xff\xff\xff\x02\x02\x02\x02";
    let li =
        b"\x00\x00\x00\x00\x00\x00\x00\x00\x00\x00\x00\x00\x00\x00\x00\x00\x00\x00\x00\x00li\x02\x00\xf0\xff\xff\xff\xef\xff\xff\xff";
    case("lh, base 16", lh, 16, 1, 0, 1024, 2);
    case("lh, base 0", lh, 0, 1, 16, 1024, 2);
    case("li, base 16", li, 16, 1, 0, 1024, 2);
    case("li, base 16, 1 place", li, 16, 1, 0, 1024, 1);
    case("li, base 16, no place", li, 16, 1, 0, 1024, 0);
}

// Places: exactly enough, one fewer, none, one more.
fn rooms() {
    let li = b"\x00\x00\x00\x00li\x02\x00\x10\x00\x00\x00\x20\x00\x00\x00";
    let empty = b"\x00\x00\x00\x00li\x00\x00";
    let later =
        b"\x00\x00\x00\x00ri\x02\x00\x10\x00\x00\x00\x00\x01\x00\x00\x00\x00\x00\x00li\x02\x00\x05\x00\x00\x00\x06\x00\x00\x00";
    case("2 offsets, 3 places", li, 0, 1, 0, 1024, 3);
    case("2 offsets, 2 places", li, 0, 1, 0, 1024, 2);
    case("2 offsets, 1 place", li, 0, 1, 0, 1024, 1);
    case("2 offsets, no place", li, 0, 1, 0, 1024, 0);
    case("no offset, no place", empty, 0, 1, 0, 1024, 0);
    case(
        "2 offsets then a list outside, 3 places",
        later,
        0,
        1,
        0,
        1024,
        3,
    );
    case(
        "2 offsets then a list outside, 1 place",
        later,
        0,
        1,
        0,
        1024,
        1,
    );
}

// Eight `ri` lists from 0 on, each 12 bytes on and naming the next, and behind them `li` at 96 with the entry 5. From 12 on
// there are eight levels, from 0 nine. In `far` the last `ri` list names 1000.
fn levels() {
    let chain =
        b"\x00\x00\x00\x00ri\x01\x00\x0c\x00\x00\x00\x00\x00\x00\x00ri\x01\x00\x18\x00\x00\x00\x00\x00\x00\x00ri\x01\x00\x24\x00\x00\x00\x00\x00\x00\x00ri\x01\x00\x30\x00\x00\x00\x00\x00\x00\x00ri\x01\x00\x3c\x00\x00\x00\x00\x00\x00\x00ri\x01\x00\x48\x00\x00\x00\x00\x00\x00\x00ri\x01\x00\x54\x00\x00\x00\x00\x00\x00\x00ri\x01\x00\x60\x00\x00\x00\x00\x00\x00\x00li\x01\x00\x05\x00\x00\x00";
    let far =
        b"\x00\x00\x00\x00ri\x01\x00\x0c\x00\x00\x00\x00\x00\x00\x00ri\x01\x00\x18\x00\x00\x00\x00\x00\x00\x00ri\x01\x00\x24\x00\x00\x00\x00\x00\x00\x00ri\x01\x00\x30\x00\x00\x00\x00\x00\x00\x00ri\x01\x00\x3c\x00\x00\x00\x00\x00\x00\x00ri\x01\x00\x48\x00\x00\x00\x00\x00\x00\x00ri\x01\x00\x54\x00\x00\x00\x00\x00\x00\x00ri\x01\x00\xe8\x03\x00\x00";
    let itself = b"\x00\x00\x00\x00ri\x01\x00\x00\x00\x00\x00";
    case("eight levels", chain, 0, 1, 12, 1024, 2);
    case("nine levels", chain, 0, 1, 0, 1024, 2);
    case("eight levels, budget 8", chain, 0, 1, 12, 8, 2);
    case("eight levels, budget 7", chain, 0, 1, 12, 7, 2);
    case("nine levels, budget 8", chain, 0, 1, 0, 8, 2);
    case("nine levels, budget 7", chain, 0, 1, 0, 7, 2);
    case("nine levels, the ninth outside", far, 0, 1, 0, 8, 2);
    case("eight levels, the eighth outside", far, 0, 1, 12, 8, 2);
    case("ri naming itself, budget 9", itself, 0, 1, 0, 9, 2);
    case("ri naming itself, budget 8", itself, 0, 1, 0, 8, 2);
    case("ri naming itself, budget 7", itself, 0, 1, 0, 7, 2);
    case("ri naming itself, budget 0", itself, 0, 1, 0, 0, 2);
}

// `ri` at 0 naming 20, 32, 20; `li` at 20 with the entry 1; `ri` at 32 naming 48 and 60; `li` at 48 and 60 with the entries 2
// and 3; `lx` at 72; `ri` at 80 naming 20, 72 and 1000; `ri` at 100 naming 1000 and 72.
fn order() {
    let many =
        b"\x00\x00\x00\x00ri\x03\x00\x14\x00\x00\x00\x20\x00\x00\x00\x14\x00\x00\x00\x00\x00\x00\x00li\x01\x00\x01\x00\x00\x00\x00\x00\x00\x00ri\x02\x00\x30\x00\x00\x00\x3c\x00\x00\x00\x00\x00\x00\x00li\x01\x00\x02\x00\x00\x00\x00\x00\x00\x00li\x01\x00\x03\x00\x00\x00\x00\x00\x00\x00lx\x00\x00\x00\x00\x00\x00ri\x03\x00\x14\x00\x00\x00\x48\x00\x00\x00\xe8\x03\x00\x00\x00\x00\x00\x00ri\x02\x00\xe8\x03\x00\x00\x48\x00\x00\x00";
    case("depth first, a list twice", many, 0, 1, 0, 1024, 5);
    case("the same, budget 6", many, 0, 1, 0, 6, 5);
    case("the same, budget 5", many, 0, 1, 0, 5, 5);
    case("the same, budget 3", many, 0, 1, 0, 3, 5);
    case("a leaf, an unknown kind, outside", many, 0, 1, 80, 1024, 5);
    case("the same, budget 2", many, 0, 1, 80, 2, 5);
    case("the same, budget 3", many, 0, 1, 80, 3, 5);
    case("outside, an unknown kind", many, 0, 1, 100, 1024, 5);
    case("the same, budget 1", many, 0, 1, 100, 1, 5);
}

// `li` at 0 with the entry 9, and `ri` at 12 that names it 65,535 times: its entries are all 0.
fn many_lists() {
    let mut image = [0u8; 262160];
    image[4] = b'l';
    image[5] = b'i';
    image[6] = 1;
    image[8] = 9;
    image[16] = b'r';
    image[17] = b'i';
    image[18] = 255;
    image[19] = 255;
    let mut out = [7u32; 65535];
    answer(
        "one leaf 65535 times, budget 65536",
        sub_key_walk::sub_keys(&image, 0, 1, 12, 65536, &mut out),
    );
    say!("\n");
    answer(
        "one leaf 65535 times, budget 65535",
        sub_key_walk::sub_keys(&image, 0, 1, 12, 65535, &mut out),
    );
    say!("\n");
    answer(
        "one leaf 65535 times, budget 65536, no place",
        sub_key_walk::sub_keys(&image, 0, 1, 12, 65536, &mut []),
    );
    say!("\n");
}

fn main() {
    record_numbers();
    positions();
    kinds();
    entries();
    sums();
    rooms();
    levels();
    order();
    many_lists();
}
