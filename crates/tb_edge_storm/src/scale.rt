//! How large a storm is.
ghost use Rattle.std.specs.Prelude.{◌≡◌, ◌≤◌, ◌+◌, ◌*◌, IfOk, OnOk};
ghost use Rattle.tb_edge_storm.specs.private.Found.{replies_of};
ghost use Rattle.tb_edge_storm.specs.Totals.{ids_of, with_ids_of};

use std::alloc::{AllocError, Global};

/// How many clients there are, and how many transfers each of them creates.
#[derive(Clone, Copy)]
pub(crate) struct Scale {
    pub clients: u32,
    pub transfers: u32,
    ghost few: { clients ≤ 16 },
    ghost short: { transfers ≤ 1000 },
}

/// The id of a client's kth transfer.
pub(crate) fn id_of(client: u32, k: u32) -> u128
    ensures { result ≡ client * 1000000 + k }
{
    u128::from(client) * 1_000_000 + u128::from(k)
}

/// Adds the ids of a client's first `transfers` transfers.
fn add_ids(ids: &mut Vec<u128>, client: u32, transfers: u32) -> Result<(), AllocError>
    requires { transfers ≤ 1000 }
    ensures { OnOk result (ids.new.items ≡ with_ids_of ids.old.items client transfers) }
{
    for done in 0..transfers {
        ids.push(id_of(client, done + 1))?;
    }
    Ok(())
}

impl Scale {
    /// How many replies the clients see.
    #[tactic(auto, using(crate::proofs::SeatAnswers::few))]
    pub fn replies(self) -> u32
        ensures { result ≡ replies_of self.clients self.transfers }
    {
        self.clients * (self.transfers + 1) + 2
    }

    /// The ids of the transfers of all clients.
    pub fn ids(self, alloc: Global) -> Result<Vec<u128>, AllocError>
        ensures { IfOk result (λ ids. ids.items ≡ ids_of self.clients self.transfers) }
    {
        let mut ids = Vec::new(alloc);
        for client in 0..self.clients {
            add_ids(&mut ids, client + 1, self.transfers)?;
        }
        Ok(ids)
    }
}
