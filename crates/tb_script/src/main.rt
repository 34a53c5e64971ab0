//! `tb_script`: `tbs` without its storm, with the same forms, lines and exit statuses. It is built only on the one-thread
//! server, so it is proved and built before the copies and ports are.
#![tactic(auto)]

use std::process::ExitCode;
use tb_edge_commands::{fault_of, refuse, serve, words};
use tb_records::Counting;

fn main(rt: HostRuntime) -> ExitCode {
    let mut faults = Counting::new(rt.stderr());
    let (alloc, input, output) = (rt.alloc(), rt.stdin(), rt.stdout());
    let exit_status = match words(&rt) {
        Ok(words) => serve(alloc, words.as_slice(), input, output, &mut faults),
        Err(error) => refuse(fault_of(&error), &mut faults),
    };
    ExitCode::from(exit_status)
}
