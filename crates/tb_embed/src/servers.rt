//! The handle of a server.
ghost use Rattle.std.specs.Prelude.{◌≡◌, None, Some, MatchOption};
ghost use Rattle.std.specs.Option.{is_some};

use crate::held::{Held, Server};
use crate::loose::Loose;
use std::alloc::Global;
use std::mem;

/// A handle, which its caller keeps: it is closed, or holds a server. All bytes 0 is a closed handle.
#[repr(C)]
#[derive(Drop)]
pub struct TbServer {
    pub held: Held,
    pub is_open: bool,
    ghost tagged: { is_some held.state ≡ is_open },
}

impl TbServer {
    /// A handle that holds no server.
    pub(crate) fn closed(alloc: Global) -> TbServer
        ensures { result.held.state ≡ None }
    {
        TbServer {
            held: Held::none(alloc),
            is_open: false,
        }
    }

    /// Takes the server out of the handle, which is then closed.
    pub(crate) fn take(&mut self, alloc: Global) -> Option<Box<Server>>
        ensures left { self.new.held.state ≡ None }
        ensures taken { MatchOption result (self.old.held.state ≡ None)
            (λ server. self.old.held.state ≡ Some server.value) }
    {
        let TbServer { held, is_open } = mem::replace(self, TbServer::closed(alloc));
        if !is_open {
            return None;
        }
        Some(held.into_loose().into_box())
    }

    /// Puts a server into the handle.
    pub(crate) fn put(&mut self, server: Box<Server>)
        ensures { self.new.held.state ≡ Some server.value }
    {
        *self = TbServer {
            held: Held::from_loose(Loose::of(server)),
            is_open: true,
        };
    }
}
