// Checks a supplier's listing of a key's subkeys against a hive, or writes one: files by name to a line and a listing on standard output
// (document 02, order 12; `./listing`).
#![tactic(auto)]

mod commands;
mod supplier;

fn main(rt: HostRuntime) -> std::io::Result<()> {
    commands::run_all(&rt)
}
