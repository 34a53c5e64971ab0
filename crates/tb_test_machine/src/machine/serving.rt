//! Scripts in memory, served by `run`.
use crate::comparing::holds;
use crate::machine::forms::{Answer, Form, written};
use crate::machine::scripts::Script;
use crate::machine::steps::{Step, script_of};
use std::alloc::Global;
use std::process::Abort;
use tb_machine::RunFault;
use tb_records::Profile;

/// The profiles: what a script says of both is served by each.
pub const PROFILES: [Profile; 2] = [Profile::One, Profile::Two];

/// Serves a script by profiles, for this many clients at most, compares the answer and the replies with those that are wanted, and drops it.
pub fn expect(
    rt: &impl Abort,
    script: Script,
    clients: u32,
    profiles: &[Profile],
    answer: Result<u64, RunFault>,
) {
    for profile in profiles {
        let form = Form::Run(*profile, clients);
        let input = script.bytes.as_slice();
        let replies = written(rt, script.alloc, form, input, Answer::Ran(answer));
        let same = replies.as_slice() == script.replies.as_slice();
        drop(replies);
        holds(rt, same, "the replies");
    }
    drop(script);
}

/// Serves steps to their end by profiles, part after part, for two clients at most.
pub fn serve(rt: &impl Abort, alloc: Global, profiles: &[Profile], parts: &[&[Step]]) {
    let script = script_of(rt, alloc, parts);
    let requests = script.requests;
    expect(rt, script, 2, profiles, Ok(requests));
}
