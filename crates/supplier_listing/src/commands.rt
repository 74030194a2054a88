// The arguments: a row of commands of four words each, `check HIVE KEY LISTING` or `write HIVE KEY -`. HIVE and LISTING are names of
// files, `-` standard input. KEY is `root`, or a key record's position in the file, in decimal digits. `./listing` gives one command.
ghost use Rattle.std.specs.Prelude.{IfOk};
ghost use Rattle.io.specs.Counts.{IsPrefixLen};

use super::supplier;
use super::supplier::Which;
use cell_key_node::KeyNode;
use console::Stdout;
use hive_console::input::read_hive;
use hive_console::stop;
use hive_console::stop::Stop;
use std::env;
use std::fs::File;
use words::Refusal;

// The most commands in a row.
const MOST: usize = 65535;

// The key that a word names. No hive has a position that 64 bits cannot hold: the last that they can hold stands for each of these.
fn key_named(word: &str) -> Option<Which> {
    if word == "root" {
        return Some(Which::Root);
    }
    if word.is_empty() || !word.bytes().all(|digit| digit.is_ascii_digit()) {
        return None;
    }
    Some(Which::At(word.parse().unwrap_or(usize::MAX)))
}

// Reads the file that a word names. One that cannot be opened cannot be read.
fn read_file(rt: &HostRuntime, name: &str, image: &mut [u8]) -> Result<usize, Stop>
    ensures { IfOk result (λ n. IsPrefixLen n image.new) }
{
    if name == "-" {
        read_hive(&mut rt.stdin(), image)
    } else {
        read_hive(&mut File::open(rt, name)?, image)
    }
}

// The same of a supplier's listing.
fn read_listing(rt: &HostRuntime, name: &str, listing: &mut [u8]) -> Result<usize, Stop>
    ensures { IfOk result (λ n. IsPrefixLen n listing.new) }
{
    match read_file(rt, name, listing) {
        Ok(n) => Ok(n),
        Err(Stop::Unread) => Err(Stop::UnreadListing),
        Err(stop) => Err(stop),
    }
}

// Checks a listing of at most 65,536 bytes. Its buffer is made for no other command.
#[inline(never)]
fn check(
    rt: &HostRuntime,
    listing: &str,
    image: &[u8],
    key: Result<KeyNode, Refusal>,
    out: &mut Stdout,
) -> Result<(), Stop> {
    let mut bytes = io::large_buffer();
    let n = read_listing(rt, listing, &mut bytes)?;
    supplier::check(image, key?, &bytes[..n], out)
}

// Runs a command on a hive of at most 65,536 bytes.
fn run(rt: &HostRuntime, command: &[String], out: &mut Stdout) -> Result<(), Stop> {
    let [verb, hive, key, listing] = command else {
        return Err(Stop::NoCommand);
    };
    let mut image = io::large_buffer();
    let n = read_file(rt, hive.as_str(), &mut image)?;
    let image = &image[..n];
    let which = key_named(key.as_str()).ok_or(Stop::NoCommand)?;
    let key = supplier::key_of(image, which);
    if verb.as_str() == "check" {
        check(rt, listing.as_str(), image, key, out)
    } else if verb.as_str() == "write" && listing.as_str() == "-" {
        supplier::write(image, key?, out)
    } else {
        Err(Stop::NoCommand)
    }
}

// Runs all commands. The first argument is the program's own name.
pub fn run_all(rt: &HostRuntime) -> std::io::Result<()> {
    let mut all = Vec::new(rt.alloc());
    for word in env::args(rt)? {
        all.push(word)?;
    }
    let Some((_name, commands)) = all.as_slice().split_first() else {
        stop::told(Err(Stop::NoCommand), Stdout::new());
        return Ok(());
    };
    if commands.len() % 4 != 0 || 4 * MOST < commands.len() {
        stop::told(Err(Stop::NoCommand), Stdout::new());
        return Ok(());
    }
    for command in commands.chunks_exact(4) {
        let mut out = Stdout::new();
        let outcome = run(rt, command, &mut out);
        stop::told(outcome, out);
    }
    Ok(())
}
