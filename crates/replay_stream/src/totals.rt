// Totals beside the keys: a row of calls on a table, which begins empty, and what each is answered.
use super::lines;
use super::lines::walk_refused;
use cell_key_node::KeyNode;
use console::say;
use key_totals::{Changed, Place, Totals};
use replay_case::Sums;
use sub_key_walk::WalkRefusal;

// The calls of a row of at most so many are written out.
const FEW: usize = 4;

// The bytes of a call in a name.
const CALL: usize = 32;

// A call as a name has it.
#[derive(Clone, Copy)]
struct Call {
    kind: u32,
    times: u32,
    position: u64,
    base: u32,
    budget: u32,
    count: u32,
    list: u32,
}

// What a call is answered; nothing where no call is made.
type Said = Option<Result<u64, WalkRefusal>>;

// The table after a call, and what it is answered.
#[derive(Clone, Copy)]
struct Made {
    table: Totals,
    said: Said,
}

// What is told of a row's calls: how many were answered, how many of them succeeded, the sums of the answers, and the first of them.
#[derive(Clone, Copy)]
struct Tally {
    calls: u64,
    good: u64,
    sums: Sums,
    first: [Said; FEW],
}

// The table after a row of calls, and what is told of them.
#[derive(Clone, Copy)]
struct Row {
    table: Totals,
    tally: Tally,
}

impl Call {
    // The call that these bytes are.
    fn in_bytes(bytes: &[u8]) -> Call {
        Call {
            kind: words::u32_at(bytes, 0),
            times: words::u32_at(bytes, 4),
            position: words::u64_at(bytes, 8),
            base: words::u32_at(bytes, 16),
            budget: words::u32_at(bytes, 20),
            count: words::u32_at(bytes, 24),
            list: words::u32_at(bytes, 28),
        }
    }

    // The record of a position, a base, a count and a list, each other field with a number of its own: one that can stand in an image.
    fn made_up(self, position: usize) -> KeyNode {
        KeyNode {
            position,
            base: self.base,
            size: -88,
            allocated: true,
            key_node_flag_bits: 4002,
            last_key_written_time: 4003,
            access_flag_bits: 4004,
            parent_key_offset_relative: 4005,
            number_of_sub_keys: self.count,
            number_of_volatile_sub_keys: 4006,
            sub_keys_list_offset_relative: self.list,
            volatile_sub_keys_list_offset_relative: 4007,
            number_of_key_values: 4008,
            key_values_list_offset_relative: 4009,
            security_key_offset_relative: 4010,
            class_name_offset_relative: 4011,
            largest_sub_key_name_size: 4012,
            largest_sub_key_class_name_size: 4013,
            largest_value_name_size: 4014,
            largest_value_data_size: 4015,
            work_var: 4016,
            key_name_size: 5,
            class_name_size: 4018,
        }
    }

    // How far the positions of a call lie apart: the word of the list, which a record that is made up has for itself, and 1 where it is 0.
    fn step(self) -> u64 {
        if self.kind < 2 {
            1
        } else {
            (self.list as u64).max(1)
        }
    }

    // The place that a call writes by hand, with a position.
    fn by_hand(self, position: u64) -> Place {
        Place {
            taken: self.budget % 2 == 1,
            position: position as usize,
            kept: self.count,
        }
    }
}

fn told(answer: Result<u32, WalkRefusal>) -> Said {
    Some(answer.map(|kept| kept as u64))
}

fn changed(after: Changed) -> Made {
    Made {
        table: after.table,
        said: told(after.answer),
    }
}

// No call is made.
fn unasked(table: Totals) -> Made {
    Made { table, said: None }
}

fn added(table: Totals, image: &[u8], call: Call, key: KeyNode) -> Made {
    changed(key_totals::add(table, image, key, call.budget))
}

fn replaced(table: Totals, image: &[u8], call: Call, key: KeyNode) -> Made {
    changed(key_totals::replace(table, image, key, call.budget))
}

// Adding, or replacing, with the key record at the position. Where it is refused, no call is made.
fn by_record(table: Totals, image: &[u8], call: Call, position: usize) -> Made {
    match cell_key_node::read_key_node(image, position, call.base) {
        Ok(key) if call.kind == 8 => added(table, image, call, key),
        Ok(key) => replaced(table, image, call, key),
        Err(refusal) => Made {
            table,
            said: Some(Err(WalkRefusal {
                reason: refusal.reason,
                position: refusal.position,
                lists: 0,
                places: 0,
                entries: 0,
                dropped: 0,
            })),
        },
    }
}

fn entry(table: Totals, position: usize) -> Made {
    Made {
        table,
        said: told(key_totals::kept_of(table, position)),
    }
}

fn sum(table: Totals) -> Made {
    Made {
        table,
        said: Some(Ok(key_totals::total_of(table))),
    }
}

// A call with a position, which is the total where that is written by hand.
fn asked(table: Totals, image: &[u8], call: Call, total: u64) -> Made {
    let position = total as usize;
    match call.kind {
        0 => added(table, image, call, call.made_up(position)),
        1 => replaced(table, image, call, call.made_up(position)),
        2 => changed(key_totals::remove(table, position)),
        3 => entry(table, position),
        4 => sum(table),
        6 => unasked(Totals { total, ..table }),
        7 => unasked(key_totals::empty()),
        8 | 9 => by_record(table, image, call, position),
        _ => unasked(table),
    }
}

fn said_line(said: Said) {
    match said {
        Some(Ok(number)) => say!(" call ok {number}"),
        Some(Err(refusal)) => {
            say!(" call");
            walk_refused(refusal);
        }
        None => {}
    }
}

// The sums with the numbers of a refusal.
fn with_refusal(sums: Sums, refusal: WalkRefusal) -> Sums {
    sums.more(refusal.reason.number() as u64)
        .more(refusal.position as u64)
        .more(refusal.lists as u64)
        .more(refusal.places as u64)
        .more(refusal.entries as u64)
        .more(refusal.dropped as u64)
}

// The first answers, with one behind so many others.
fn noted(first: [Said; FEW], before: u64, said: Said) -> [Said; FEW] {
    let mut first = first;
    if before < FEW as u64 {
        first[before as usize] = said;
    }
    first
}

// What is told with one call more, and the stored total behind its answer.
fn counted(tally: Tally, said: Said, total: u64) -> Tally {
    let Some(answer) = said else {
        return tally;
    };
    let (good, sums) = match answer {
        Ok(number) => (tally.good.wrapping_add(1), tally.sums.more(number)),
        Err(refusal) => (tally.good, with_refusal(tally.sums, refusal)),
    };
    Tally {
        calls: tally.calls.wrapping_add(1),
        good,
        sums: sums.more(total),
        first: noted(tally.first, tally.calls, said),
    }
}

// Places written by hand, as many as the call says.
fn laid(table: Totals, call: Call) -> Totals {
    let mut next = table;
    let mut position = call.position;
    for k in 0..call.times {
        let i = (call.base.wrapping_add(k) % 256) as usize;
        next.places[i] = call.by_hand(position);
        position = position.wrapping_add(call.step());
    }
    next
}

// A call as many times as it says, its positions a step apart.
fn repeated(row: Row, image: &[u8], call: Call) -> Row {
    let mut table = row.table;
    let mut tally = row.tally;
    if call.kind == 5 {
        return Row {
            table: laid(table, call),
            tally,
        };
    }
    let mut position = call.position;
    for _time in 0..call.times {
        let after = asked(table, image, call, position);
        table = after.table;
        tally = counted(tally, after.said, table.total);
        position = position.wrapping_add(call.step());
    }
    Row { table, tally }
}

// The calls that a name holds.
fn all_calls(image: &[u8], name: &[u8]) -> Row {
    let mut row = Row {
        table: key_totals::empty(),
        tally: Tally {
            calls: 0,
            good: 0,
            sums: Sums::default(),
            first: [None; FEW],
        },
    };
    for call in name.chunks_exact(CALL) {
        row = repeated(row, image, Call::in_bytes(call));
    }
    row
}

// How many of the places so far are taken, and the sums of their numbers.
#[derive(Clone, Copy)]
struct Seen {
    taken: u64,
    sums: Sums,
}

fn with_place(seen: Seen, place: Place) -> Seen {
    let one = place.taken as u64;
    Seen {
        taken: seen.taken.wrapping_add(one),
        sums: seen
            .sums
            .more(one)
            .more(place.position as u64)
            .more(place.kept as u64),
    }
}

// A table: the places taken, the stored total, and the places' numbers as a row.
fn table_line(table: Totals) {
    let mut seen = Seen {
        taken: 0,
        sums: Sums::default(),
    };
    for place in table.places {
        seen = with_place(seen, place);
    }
    say!(" {} {} 768", seen.taken, table.total);
    lines::summed(seen.sums);
}

// A table whose first place has a position and a number, written by hand.
fn with_one(position: usize, kept: u32) -> Totals {
    let mut table = key_totals::empty();
    table.places[0] = Place {
        position,
        kept,
        taken: true,
    };
    table.total = kept as u64;
    table
}

// An entry added or replaced by itself, in an empty table, or for an odd number in one whose first place has it with the record's position: the
// answer, and the table.
pub fn one_call(adding: bool, image: &[u8], key: KeyNode, budget: u32, number: u32) {
    let table = if number % 2 == 1 {
        with_one(key.position, number)
    } else {
        key_totals::empty()
    };
    let after = if adding {
        key_totals::add(table, image, key, budget)
    } else {
        key_totals::replace(table, image, key, budget)
    };
    match after.answer {
        Ok(kept) => say!(" ok {kept}"),
        Err(refusal) => walk_refused(refusal),
    }
    table_line(after.table);
}

// The calls and their sums, each answer of a row of few, and the table.
pub fn row_of_calls(image: &[u8], name: &[u8]) {
    let row = all_calls(image, name);
    let tally = row.tally;
    say!(" ok {} {}", tally.calls, tally.good);
    lines::summed(tally.sums);
    if tally.calls <= FEW as u64 {
        for said in tally.first {
            said_line(said);
        }
    }
    table_line(row.table);
}
