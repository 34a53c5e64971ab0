//! A server behind a pointer that the caller of the library keeps, or no server.
ghost use Rattle.std.specs.Prelude.{◌≡◌, true, Option, None, Some};
ghost use Rattle.std.specs.Option.{is_some};
ghost use Rattle.tb_embed.specs.Kept.{kept};
ghost use Rattle.tb_embed.specs.declared.held.Server.{Server};

use crate::loose::Loose;
use std::alloc::Global;
use std::marker::Model;
use std::ptr::null_mut;
use tb_machine::Machine;

/// A server: the machine that it moves on.
#[derive(Drop)]
pub struct Server {
    pub machine: Machine<Global>,
}

/// A server behind a pointer without a type, as C can hold it; or no server, and then the pointer is null.
#[repr(C)]
#[derive(Drop)]
pub struct Held {
    at: *mut (),
    alloc: Global,
    pub ghost state: { Option Server },
}

impl Model for Held {
    ghost also_owns = { λ h. kept h.alloc h.at h.state };
}

impl Held {
    /// No server.
    pub(crate) fn none(alloc: Global) -> Held
        ensures { result.state ≡ None }
    {
        Held {
            at: null_mut(),
            alloc,
        }
    }

    /// The server of a box.
    pub(crate) fn from_loose(loose: Loose<Server, Global>) -> Held
        ensures { result.state ≡ Some loose.value }
    {
        let Loose { at, alloc } = loose;
        Held {
            at: at as *mut (),
            alloc,
        }
    }

    /// The box of the server.
    pub(crate) fn into_loose(self) -> Loose<Server, Global>
        requires { is_some self.state ≡ true }
        ensures { self.state ≡ Some result.value }
    {
        let Held { at, alloc } = self;
        Loose {
            at: at as *mut Server,
            alloc,
        }
    }
}

// A handle owns only its server's box.
unsafe impl Send for Held {}
