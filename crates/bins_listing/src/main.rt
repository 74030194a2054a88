// Lists the bins of one hive of any size: standard input, 4 KiB at a time, to lines on standard output (`./list --bins`).
#![tactic(auto)]

mod bins;

use console::Stdout;
use hive_console::stop;

fn main(rt: HostRuntime) {
    let mut out = Stdout::new();
    let outcome = bins::list(&mut rt.stdin(), &mut out);
    stop::told(outcome, out);
}
