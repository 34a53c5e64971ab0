//! What carries a client's requests to the server, and delivers some of them again.
ghost use Rattle.std.specs.Prelude.{◌≡◌, ◌+◌, [], ◌∷◌, OnOk};
ghost use Rattle.tb_edge_storm.specs.private.Clients.{port_of, more_by, offers};

use crate::faults::StormFault;
use std::mem;
use std::sync::Wait;
use tb_records::Request;
use tb_service::{Closed, Port};

/// A client's way to the server: its port, open or closed, until the server has taken it in.
#[derive(Drop)]
pub(crate) enum Line {
    Open(Port),
    Closed(Closed),
    Gone,
}

impl Line {
    /// Closes the port.
    pub fn close<R: Wait>(&mut self, rt: &R)
        ensures { port_of self.new ≡ port_of self.old }
    {
        match mem::replace(self, Line::Gone) {
            Line::Open(port) => *self = Line::Closed(port.close(rt)),
            other => *self = other,
        }
    }

    /// Delivers a request that was sent before. If it comes back, the server has ended.
    pub fn deliver<R: Wait>(&mut self, rt: &R, request: Request) -> Result<(), StormFault>
        ensures sent { OnOk result (port_of self.new ≡ more_by (port_of self.old) (request ∷ [])) }
        ensures count { OnOk result (offers self.new ≡ offers self.old + 1) }
    {
        let Line::Open(port) = self else {
            drop(request);
            return Err(StormFault::NoPlace);
        };
        match port.offer(rt, request) {
            Ok(()) => Ok(()),
            Err(back) => {
                drop(back);
                Err(StormFault::GaveUp)
            }
        }
    }
}
