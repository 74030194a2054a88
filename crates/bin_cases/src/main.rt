// Cases of the check of bins, one line each: what it is about, and the answer. `bins` is followed by the bins, the allocated and the
// free cells, and the bytes of both; `refused` by the number and the position.
#![tactic(auto)]

const STDOUT_FILENO: i32 = 1;

// The word of the bytes "hbin".
const HBIN: i32 = 0x6E69_6268;

// Words that are set in the bins, each at a place that counts from the base. A size word of an allocated cell is negative.
type Changes = &'static [(u32, i32)];

// The sizes of document 01's example, in a good bin.
const EXAMPLE: [(u32, i32); 8] = [
    (0, HBIN),
    (4, 0),
    (8, 4096),
    (32, -88),
    (120, -24),
    (144, -88),
    (232, -88),
    (320, 3776),
];

// Two good bins of 4,096 bytes: in the first an allocated cell of 16 bytes and a free one of 4,048, in the second an allocated one of
// 4,064.
const TWO_BINS: [(u32, i32); 9] = [
    (0, HBIN),
    (4, 0),
    (8, 4096),
    (32, -16),
    (48, 4048),
    (4096, HBIN),
    (4100, 4096),
    (4104, 4096),
    (4128, -4064),
];

// The two bins as they are: what it is about, the image's length, the base and the bins size.
const LENGTHS: [(&'static [u8], usize, u32, u32); 18] = [
    (b"as long as the image", 8192, 0, 8192),
    (b"one byte more than the image", 8191, 0, 8192),
    (b"one byte less than the image", 8193, 0, 8192),
    (b"the first of two bins", 8192, 0, 4096),
    (b"no bytes, no image", 0, 0, 0),
    (b"no bytes, base at the end", 100, 100, 0),
    (b"no bytes, base past the end", 100, 101, 0),
    (b"base past the end", 100, 4096, 4096),
    (b"base and size at their most", 8192, 4294967295, 4294967295),
    (b"size at its most", 8192, 0, 4294967295),
    // rests that are too short
    (b"1 byte", 8192, 0, 1),
    (b"31 bytes", 8192, 0, 31),
    (b"32 bytes", 8192, 0, 32),
    (b"one byte less than a bin", 8192, 0, 4095),
    (b"a bin and 1 byte", 8192, 0, 4097),
    (b"a bin and 31 bytes", 8192, 0, 4127),
    (b"a bin and 32 bytes", 8192, 0, 4128),
    (b"one byte less than two bins", 8192, 0, 8191),
];

// The two bins with words changed, at base 0, in an image that ends where they do.
const CHANGED: [(&'static [u8], Changes); 49] = [
    // headers
    (b"signature hbio", &[(0, 0x6F69_6268)]),
    (b"signature Hbin", &[(0, 0x6E69_6248)]),
    (b"second signature 0", &[(4096, 0)]),
    (b"own offset 1", &[(4, 1)]),
    (b"own offset 4096", &[(4, 4096)]),
    (b"second own offset 0", &[(4100, 0)]),
    (b"second own offset 4095", &[(4100, 4095)]),
    (b"second own offset 4097", &[(4100, 4097)]),
    // sizes of bins
    (b"bin size 0", &[(8, 0)]),
    (b"bin size 32", &[(8, 32)]),
    (b"bin size 4095", &[(8, 4095)]),
    (b"bin size 4097", &[(8, 4097)]),
    (b"bin size 6144", &[(8, 6144)]),
    (b"bin size 12288, past the rest", &[(8, 12288)]),
    (b"bin size 2147483648", &[(8, -2147483648)]),
    (b"bin size -4096", &[(8, -4096)]),
    (b"bin size 8192, its cells not", &[(8, 8192)]),
    (b"bin size 8192, its cells too", &[(8, 8192), (48, 8144)]),
    (b"second bin size 0", &[(4104, 0)]),
    (b"second bin size 8192, past the rest", &[(4104, 8192)]),
    // cells
    (b"cell 0", &[(32, 0)]),
    (b"cell 4", &[(32, 4)]),
    (b"cell -4", &[(32, -4)]),
    (b"cell 8, then 0", &[(32, 8)]),
    (b"cell 8, then 4056", &[(32, 8), (40, 4056)]),
    (b"cell -8, then 4056", &[(32, -8), (40, 4056)]),
    (b"cell 12", &[(32, 12)]),
    (b"cell -12", &[(32, -12)]),
    (b"cell 16", &[(32, 16)]),
    (b"cell -1", &[(32, -1)]),
    (b"cell -2147483648", &[(32, -2147483648)]),
    (b"cell -2147483640", &[(32, -2147483640)]),
    (b"cell 2147483640", &[(32, 2147483640)]),
    (b"cell 2147483647", &[(32, 2147483647)]),
    (b"cell 4056, then 0", &[(32, 4056)]),
    (b"cell 4064, to the end", &[(32, 4064)]),
    (b"cell -4064, to the end", &[(32, -4064)]),
    (b"cell 4072, past the end by 8", &[(32, 4072)]),
    (b"cell -4072, past the end by 8", &[(32, -4072)]),
    (b"last cell 0", &[(48, 4040)]),
    (b"last cell 8", &[(48, 4040), (4088, 8)]),
    (b"last cell -8", &[(48, 4040), (4088, -8)]),
    (
        b"last cell 16, past the end by 8",
        &[(48, 4040), (4088, 16)],
    ),
    (b"second bin's cell 0", &[(4128, 0)]),
    (b"second bin's cell 4064", &[(4128, 4064)]),
    (
        b"second bin's cell 4072, past the end by 8",
        &[(4128, 4072)],
    ),
    // which comes first
    (b"first cells before second bin", &[(32, 0), (4096, 0)]),
    (b"first bin before its cells", &[(0, 0), (32, 0)]),
    (b"second bin before its cells", &[(4096, 0), (4128, 0)]),
];

// The two bins with words changed, with the image's length, the base and the bins size.
const OTHERS: [(&'static [u8], Changes, usize, u32, u32); 10] = [
    (b"behind the bins size", &[(4096, 0)], 8192, 0, 4096),
    (b"base 4096", &[], 12288, 4096, 8192),
    (b"base 4096, one byte short", &[], 12287, 4096, 8192),
    (b"base 4096, a bin and 31 bytes", &[], 12288, 4096, 4127),
    (b"base 4096, signature", &[(0, 0)], 12288, 4096, 8192),
    (
        b"base 4096, own offset from the image",
        &[(4, 4096)],
        12288,
        4096,
        8192,
    ),
    (b"base 4096, first cell", &[(32, 4)], 12288, 4096, 8192),
    (
        b"base 4096, second bin's cell",
        &[(4128, 4072)],
        12288,
        4096,
        8192,
    ),
    (b"base 7", &[], 8199, 7, 8192),
    (b"base 7, second cell", &[(48, 4056)], 8199, 7, 8192),
];

fn text(bytes: &[u8]) {
    io::write_all(STDOUT_FILENO, bytes);
}

// An answer and its numbers, to the end of the line.
fn tell(answer: &[u8], numbers: &[usize]) {
    text(answer);
    for n in numbers {
        text(b" ");
        io::print_decimal(STDOUT_FILENO, *n as u64);
    }
    text(b"\n");
}

fn report(label: &[u8], image: &[u8], base: u32, size: u32) {
    text(label);
    text(b": ");
    match hive_bin::check_bins(image, base, size) {
        Ok(t) => tell(
            b"bins",
            &[
                t.bins,
                t.allocated_cells,
                t.free_cells,
                t.allocated_bytes,
                t.free_bytes,
            ],
        ),
        Err(refusal) => tell(
            b"refused",
            &[refusal.reason.number() as usize, refusal.position],
        ),
    }
}

// Sets words in the bins that begin at a base, those that are within the image.
fn set(image: &mut [u8], base: u32, words: &[(u32, i32)]) {
    for (at, word) in words {
        let place = base as usize + *at as usize;
        if let Some(room) = image.get_mut(place..place + 4) {
            room.copy_from_slice(&word.cast_unsigned().to_le_bytes());
        }
    }
}

// The two bins with words changed, in an image of so many bytes. (In a frame of its own, as the example below: else both images would be in
// that of `main`.)
#[inline(never)]
fn changed(label: &[u8], changes: &[(u32, i32)], length: usize, base: u32, size: u32) {
    let mut image = [0u8; 16384];
    set(&mut image, base, &TWO_BINS);
    set(&mut image, base, changes);
    report(label, words::part(&image, 0, length), base, size);
}

// The example of document 01, in an image of its own.
#[inline(never)]
fn example() {
    let mut image = [0u8; 8192];
    set(&mut image, 4096, &EXAMPLE);
    report(b"the example", &image, 4096, 4096);
}

fn main() {
    example();
    for (label, length, base, size) in LENGTHS {
        changed(label, &[], length, base, size);
    }
    for (label, changes) in CHANGED {
        changed(label, changes, 8192, 0, 8192);
    }
    for (label, changes, length, base, size) in OTHERS {
        changed(label, changes, length, base, size);
    }
}
