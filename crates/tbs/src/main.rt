//! `tbs`: serves scripts of request frames, dumps the histories that they make, and replays dumps, from standard input to
//! standard output; and runs storms of client threads.
//!
//! Module:
//!
//! - `arguments`: the words that ask for a storm; tb_edge_commands reads all others.
#![tactic(auto)]

mod arguments;

use arguments::read_storm;
use std::process::ExitCode;
use tb_edge_commands::{fault_of, refuse, serve, words};
use tb_edge_storm::storm;
use tb_records::Counting;

fn main(rt: HostRuntime) -> ExitCode {
    let mut faults = Counting::new(rt.stderr());
    let exit_status = match words(&rt) {
        Ok(words) => match read_storm(words.as_slice()) {
            Some((clients, transfers)) => {
                let mut writer = Counting::new(rt.stdout());
                storm(
                    &rt,
                    rt.alloc(),
                    clients,
                    transfers,
                    &mut writer,
                    &mut faults,
                )
            }
            None => serve(
                rt.alloc(),
                words.as_slice(),
                rt.stdin(),
                rt.stdout(),
                &mut faults,
            ),
        },
        Err(error) => refuse(fault_of(&error), &mut faults),
    };
    ExitCode::from(exit_status)
}
