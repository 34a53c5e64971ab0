//! `tb_oracle`: the proved session of one client, a step at a time. Each step of standard input has a client's fields and
//! what is done with them: a call, or bytes that came. Its outcome and the fields after it go to standard output.
//!
//! Modules, each over those before it:
//!
//! - `faults`: why the program ends before its input does.
//! - `steps`: one step, from its bytes to those of its answer.
//! - `answering`: the steps of a reader, answered one after another.
#![tactic(auto)]

mod answering;
mod faults;
mod steps;

use answering::answer_input;
use std::process::ExitCode;

fn main(rt: HostRuntime) -> ExitCode {
    match answer_input(rt.alloc(), rt.stdin(), &mut rt.stdout()) {
        Ok(()) => ExitCode::from(0),
        Err(fault) => {
            let _ = eprintln!(&rt; "tb_oracle: {fault}");
            ExitCode::from(fault.exit_status())
        }
    }
}
