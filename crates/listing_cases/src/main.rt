// The listing of the hives in data/, one after another, each under its label.
#![tactic(auto)]

use console::say;
use hive_console::input;
use root_listing::Root;
use std::fs::File;
use std::rt::Files;

fn case<R: Files>(rt: &R, label: &str) {
    say!("{label}\n");
    match File::open(rt, label) {
        Ok(mut file) => input::list_input(&mut file, &Root),
        Err(_) => say!("no such hive\n"),
    }
}

fn main(rt: HostRuntime) {
    let labels = [
        "empty",
        "cut_to_4095",
        "cut_to_4096",
        "cut_to_8191",
        "example",
        "one_byte_more",
        "not_regf",
        "wrong_checksum",
        "bins_size_0",
        "bins_size_4097",
        "bins_size_4095",
        "not_hbin",
        "bin_elsewhere",
        "cell_0",
        "cell_past_the_bin",
        "cell_of_4",
        "root_negative",
        "root_least",
        "root_at_the_end",
        "root_past_the_end",
        "root_79_left",
        "root_80_left",
        "root_no_nk",
        "root_is_the_list",
        "root_size_79",
        "root_free",
        "root_name_to_the_end",
        "root_name_past_the_end",
        "count_most",
        "count_above",
        "count_0",
        "count_0_list_gone",
        "list_at_the_end",
        "list_past_the_end",
        "list_7_left",
        "list_8_left",
        "list_unknown",
        "list_count_0",
        "entries_to_the_end",
        "entries_past_the_end",
        "entry_dropped",
        "entry_kept_last",
        "names_itself",
        "ri_of_nothing",
        "lists_1024",
        "lists_1025",
        "keys_4096",
        "keys_4097",
        "all_65536",
        "all_65537",
        "example_of_65537",
        "samba_1_1_3k_2v_repaired",
        "samba_1_1_3k_2v",
        "samba_1_3_40k_3v_repaired",
        "samba_1_3_40k_3v",
        "samba_1_5_3k_2v_repaired",
        "samba_1_5_3k_2v",
    ];
    for label in labels {
        case(&rt, label);
    }
}
