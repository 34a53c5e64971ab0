//! How a request relates to its client's session.

/// How a request relates to its client's session.
#[derive(Clone, Copy, Debug, PartialEq, Eq)]
pub enum Class {
    /// The client has no session.
    NoSession,
    /// The session is below the client's.
    SessionTooLow,
    /// The session is above the client's.
    NewerSession,
    /// The session's last request has a greater number.
    Older,
    /// The session's last request again: it gets the stored reply.
    Repeat,
    /// The session's last request has this number, and another operation or body.
    Collision,
    /// To be executed: a register of a client without a session, or the request that follows the session's last.
    New,
    /// Requests before this one are missing.
    NewerRequest,
}
