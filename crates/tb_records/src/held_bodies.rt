//! A request's body, which copies of the request may share.
ghost use Rattle.std.specs.Prelude.{◌≡◌, IfOk};
ghost use Rattle.tb_records.specs.HeldBodies.{body_of};

use crate::bodies::Body;
use std::alloc::{AllocError, Global};
use std::mem;
use std::sync::Arc;

/// The body of one request, or one that several copies of a request share.
#[derive(Drop)]
pub enum HeldBody {
    Own(Body),
    Shared(Arc<Body>),
}

impl HeldBody {
    /// The body.
    pub fn get(&self) -> &Body
        ensures { result.now ≡ body_of self.now }
    {
        match self {
            HeldBody::Own(body) => body,
            HeldBody::Shared(body) => &**body,
        }
    }

    /// A body equal to this one; if it is shared, the same body.
    pub fn copy(&self, alloc: Global) -> Result<HeldBody, AllocError>
        ensures { IfOk result (λ held. body_of held ≡ body_of self.now) }
    {
        Ok(match self {
            HeldBody::Own(body) => HeldBody::Own(body.copy(alloc)?),
            HeldBody::Shared(body) => HeldBody::Shared(Arc::try_clone(body)?),
        })
    }

    /// Makes copies share the body from now on.
    pub fn share(&mut self, alloc: Global) -> Result<(), AllocError>
        ensures { body_of self.new ≡ body_of self.old }
    {
        let held = mem::replace(self, HeldBody::Own(Body::Register));
        let (held, shared) = held.shared(alloc);
        *self = held;
        shared
    }

    /// As `share`, by value.
    fn shared(self, alloc: Global) -> (HeldBody, Result<(), AllocError>)
        ensures { body_of result.0 ≡ body_of self }
    {
        match self {
            HeldBody::Shared(body) => (HeldBody::Shared(body), Ok(())),
            HeldBody::Own(body) => match Arc::new(alloc, body) {
                Ok(body) => (HeldBody::Shared(body), Ok(())),
                Err(failed) => (HeldBody::Own(failed.value), Err(AllocError)),
            },
        }
    }
}
