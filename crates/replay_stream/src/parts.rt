// Bins as they arrive: the parts of a row handed on one after another, or one part to a record of any numbers, and what is answered.
use super::lines;
use bins_arriving::{BinsSoFar, Numbered};
use console::say;
use hive_bin::BinTotals;
use replay_case::{Case, Sums};
use words::Refusal;

// The parts of a row of at most so many are written out.
const FEW: u64 = 4;

// A row while its parts come: the bins so far, where the next part begins in the image, how many parts have come and after how many of
// them nothing was refused, and the sums of what each was answered.
#[derive(Clone, Copy)]
struct Row {
    so_far: BinsSoFar,
    at: usize,
    parts: u64,
    good: u64,
    sums: Sums,
}

fn totals_line(totals: BinTotals) {
    say!(
        " {} {} {} {} {}",
        totals.bins,
        totals.allocated_cells,
        totals.free_cells,
        totals.allocated_bytes,
        totals.free_bytes,
    );
}

fn numbered(refusal: Numbered) {
    say!(" refused {} {}", refusal.number, refusal.position);
}

fn arriving_line(answer: Result<BinTotals, Numbered>) {
    match answer {
        Ok(totals) => {
            say!(" ok");
            totals_line(totals);
        }
        Err(refusal) => numbered(refusal),
    }
}

pub fn bins_line(answer: Result<BinTotals, Refusal>) {
    arriving_line(answer.map_err(|refusal| Numbered {
        number: refusal.reason.number(),
        position: refusal.position,
    }));
}

// What a part is answered: the bytes taken and the totals so far, or the refusal.
fn part_line(so_far: BinsSoFar) {
    say!(" part");
    match so_far.answer {
        Ok(totals) => {
            say!(" ok {}", so_far.taken);
            totals_line(totals);
        }
        Err(refusal) => numbered(refusal),
    }
}

// The sums with the numbers of one answer more.
fn with_totals(sums: Sums, taken: u32, totals: BinTotals) -> Sums {
    sums.more(taken as u64)
        .more(totals.bins as u64)
        .more(totals.allocated_cells as u64)
        .more(totals.free_cells as u64)
        .more(totals.allocated_bytes as u64)
        .more(totals.free_bytes as u64)
}

fn with_refusal(sums: Sums, refusal: Numbered) -> Sums {
    sums.more(refusal.number as u64)
        .more(refusal.position as u64)
}

impl Row {
    // The row with its next part, which is the image's bytes up to an end.
    fn with_part(self, part: &[u8], end: usize, shown: bool) -> Row {
        let so_far = bins_arriving::take_part(self.so_far, part);
        if shown {
            part_line(so_far);
        }
        let (good, sums) = match so_far.answer {
            Ok(totals) => (
                self.good.wrapping_add(1),
                with_totals(self.sums, so_far.taken, totals),
            ),
            Err(refusal) => (self.good, with_refusal(self.sums, refusal)),
        };
        Row {
            so_far,
            at: end,
            parts: self.parts.wrapping_add(1),
            good,
            sums,
        }
    }

    // The next part: so many bytes of the image, or those that are left of it.
    fn next_part(self, image: &[u8], length: u32, shown: bool) -> Row {
        let at = self.at;
        if image.len() < at {
            return self;
        }
        let end = at + (length as usize).min(image.len() - at);
        self.with_part(&image[at..end], end, shown)
    }

    // The parts whose lengths a name holds.
    fn once(self, image: &[u8], name: &[u8], shown: bool) -> Row {
        let mut row = self;
        for length in name.chunks_exact(4) {
            row = row.next_part(image, words::u32_at(length, 0), shown);
        }
        row
    }
}

// These parts so many times.
fn all_parts(case: Case, image: &[u8], name: &[u8], shown: bool) -> Row {
    let mut row = Row {
        so_far: bins_arriving::begin(case.a, case.b),
        at: 0,
        parts: 0,
        good: 0,
        sums: Sums::default(),
    };
    for _time in 0..case.c {
        row = row.once(image, name, shown);
    }
    row
}

// The end's answer, the parts and their sums; a row of few parts is gone through again, and each written out.
pub fn row_of_parts(case: Case, image: &[u8], name: &[u8]) {
    let row = all_parts(case, image, name, false);
    arriving_line(bins_arriving::finish(row.so_far));
    say!(" {} {}", row.parts, row.good);
    lines::summed(row.sums);
    if row.parts <= FEW {
        all_parts(case, image, name, true);
    }
}

// The answer that a name holds from its byte 12 on.
fn answer_in(name: &[u8]) -> Result<BinTotals, Numbered> {
    if words::byte_at(name, 12) == 0 {
        Ok(BinTotals {
            bins: words::u64_at(name, 13) as usize,
            allocated_cells: words::u64_at(name, 21) as usize,
            free_cells: words::u64_at(name, 29) as usize,
            allocated_bytes: words::u64_at(name, 37) as usize,
            free_bytes: words::u64_at(name, 45) as usize,
        })
    } else {
        Err(Numbered {
            number: words::u32_at(name, 13),
            position: words::u64_at(name, 17) as usize,
        })
    }
}

// The record that a case's words and its name make.
fn record_in(case: Case, name: &[u8]) -> BinsSoFar {
    let mut head = [0u8; 12];
    for (i, byte) in head.iter_mut().enumerate() {
        *byte = words::byte_at(name, i);
    }
    BinsSoFar {
        base: case.a,
        size: case.b,
        taken: case.c,
        place: case.d,
        over: case.e,
        head,
        answer: answer_in(name),
    }
}

// The end's answer after one part, and the record whole.
pub fn one_part(case: Case, image: &[u8], name: &[u8]) {
    let so_far = bins_arriving::take_part(record_in(case, name), image);
    arriving_line(bins_arriving::finish(so_far));
    say!(
        " {} {} {} {} {}",
        so_far.base,
        so_far.size,
        so_far.taken,
        so_far.place,
        so_far.over,
    );
    lines::hex(&so_far.head);
    arriving_line(so_far.answer);
}
