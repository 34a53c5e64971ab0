//! What is kept of a client, and how a request relates to it.
ghost use Rattle.std.specs.Prelude.{◌≡◌, false};
ghost use Rattle.tb_records.specs.Messages.{is_register};
ghost use Rattle.tb_sessions.specs.Judged.{class_beside};

use crate::classes::Class;
use tb_records::{Body, Reply, Request, Status};

/// A client's session: its last committed request and the reply to it.
#[derive(Drop)]
pub struct Row {
    /// The client of the session.
    pub client: u128,
    /// The commit number of the register that made the session.
    pub session: u64,
    /// The last committed request.
    pub request: Request,
    /// The reply to it.
    pub reply: Reply,
    /// The commit number of that reply.
    pub commit: u64,
}

/// The register of client 1, which fills a row that no client has.
fn filler() -> Request {
    match Request::new(1, 0, 0, Body::Register) {
        Ok(request) => request,
        Err(_) => unreachable!(),
    }
}

/// The content of a node for a row that is not in use. Nothing reads it.
impl Default for Row {
    fn default() -> Row {
        let request = filler();
        let reply = Reply::refusal(&request, Status::NoSession);
        Row {
            client: 0,
            session: 0,
            request,
            reply,
            commit: 0,
        }
    }
}

impl Row {
    /// How a request of the row's client relates to the row.
    pub(crate) fn class_beside(&self, request: &Request) -> Class
        ensures { result ≡ class_beside self.now request.now }
    {
        if matches!(request.body(), Body::Register) {
            return if self.request.request() == 0 {
                Class::Repeat
            } else {
                Class::Older
            };
        }
        if request.session() < self.session {
            return Class::SessionTooLow;
        }
        if self.session < request.session() {
            return Class::NewerSession;
        }
        self.class_in_session(request)
    }

    /// How a numbered request of the row's session relates to the session's last.
    fn class_in_session(&self, request: &Request) -> Class
        requires numbered { is_register request.now.body ≡ false }
        requires same_session { request.now.session ≡ self.now.session }
        ensures { result ≡ class_beside self.now request.now }
    {
        let last = self.request.request();
        let number = request.request();
        if number < last {
            return Class::Older;
        }
        if number == last {
            return if request.body().same(self.request.body()) {
                Class::Repeat
            } else {
                Class::Collision
            };
        }
        if number - last == 1 {
            Class::New
        } else {
            Class::NewerRequest
        }
    }
}
