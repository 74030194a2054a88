// Lists one hive: standard input to lines on standard output (document 01, "Listing program").
#![tactic(auto)]

use hive_console::input;
use root_listing::Root;

fn main(rt: HostRuntime) {
    input::list_input(&mut rt.stdin(), &Root);
}
