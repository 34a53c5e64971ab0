//! The opening of a handle.
ghost use Rattle.std.specs.Prelude.{◌≡◌, true, false, IfOk, IfSome, MatchOption};
ghost use Rattle.tb_machine.specs.Histories.{start};
ghost use Rattle.tb_embed.specs.Calls.{standing, OpensHandle, is_profile, numbered_profile};

use crate::held::Server;
use crate::outcomes::Outcome;
use crate::servers::TbServer;
use std::alloc::{AllocError, Global};
use tb_machine::Machine;
use tb_records::{ClientsMax, Profile};

/// The profile of a number.
fn profile_of(profile: u32) -> Option<Profile>
    ensures value { MatchOption result (is_profile profile ≡ false) (λ p. p ≡ numbered_profile profile) }
    ensures known { IfSome result (λ p. is_profile profile ≡ true) }
{
    match profile {
        1 => Some(Profile::One),
        2 => Some(Profile::Two),
        _ => None,
    }
}

/// A server at the empty history.
fn server_in(
    alloc: Global,
    profile: Profile,
    clients_max: ClientsMax,
) -> Result<Box<Server>, AllocError>
    ensures { IfOk result (λ server. server.value.machine ≡ start profile clients_max) }
{
    let machine = Machine::new_in(alloc, alloc, profile, clients_max)?;
    match Box::new(alloc, Server { machine }) {
        Ok(server) => Ok(server),
        Err(failed) => {
            drop(failed);
            Err(AllocError)
        }
    }
}

/// Opens a handle that is closed.
pub(crate) fn open(alloc: Global, server: &mut TbServer, profile: u32, clients_max: u32) -> Outcome
    ensures { OpensHandle profile clients_max (standing server.old) (standing server.new) result }
{
    let Some(profile) = profile_of(profile) else {
        return Outcome::Usage
    };
    let Some(clients_max) = ClientsMax::new(clients_max) else {
        return Outcome::Usage
    };
    if let Some(held) = server.take(alloc) {
        server.put(held);
        return Outcome::Usage;
    }
    match server_in(alloc, profile, clients_max) {
        Ok(held) => {
            server.put(held);
            Outcome::Done(0)
        }
        Err(AllocError) => Outcome::NoMemory,
    }
}
