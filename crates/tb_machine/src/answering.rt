//! Answers from a machine in its current state.
ghost use Rattle.std.specs.Prelude.{◌≡◌, IfOk};
ghost use Rattle.tb_records.specs.Messages.{IsLawful};
ghost use Rattle.tb_machine.specs.Histories.{answer_to};

use crate::machines::Machine;
use crate::serving::{status_of, stored_reply};
use std::alloc::{AllocError, Global};
use tb_records::{Reply, Request};
use tb_sessions::Class;

/// The answer to a request, which leaves the machine as it is: a repeat gets the stored reply, a new request `NotYet`, and any other request the
/// refusal that its class names.
pub fn answer_of(
    alloc: Global,
    machine: &Machine<Global>,
    request: &Request,
) -> Result<Reply, AllocError>
    ensures answer { IfOk result (λ reply. reply ≡ answer_to machine.now request.now) }
    ensures lawful { IsLawful request.now }
{
    let _lawful = request.body();
    match machine.class(request) {
        Class::Repeat => stored_reply(machine, request.client()).copy(alloc),
        class => Ok(Reply::refusal(request, status_of(class))),
    }
}
