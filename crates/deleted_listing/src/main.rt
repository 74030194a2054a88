// Lists the deleted keys of one hive: standard input to lines on standard output (`./list --deleted`).
#![tactic(auto)]

mod deleted;

use deleted::Deleted;
use hive_console::input;

fn main(rt: HostRuntime) {
    input::list_input(&mut rt.stdin(), &Deleted);
}
