//! How a socket was served.
ghost use Rattle.std.specs.Prelude.{◌≡◌};
ghost use Rattle.spec_sockets.specs.Serving.{end_of_desk};

use spec_batch::desk::{DeskError, Front};

/// The most texts of a socket that are answered.
pub const MAX_TEXTS: u64 = 10_000;

/// The most calls that are made on a socket to look at states: some five days in which an account changes twice a second.
pub const MAX_LOOK_CALLS: u64 = 800_000;

/// The most turns of a socket, of which an idle one has two a second.
pub const MAX_TURNS: u64 = 1_000_000_000;

/// How a socket ended.
#[derive(Clone, Copy, Debug, PartialEq, Eq, Drop)]
pub enum WsEnd {
    /// The client sent no more messages.
    Closed,
    /// The client sent a message that is no text (RFC 8887 section 4.3.1).
    Binary,
    /// As many texts were answered as a socket may have, or it may make no more calls to look at states, or it had as many turns as it may.
    Quota,
    /// The link failed.
    LinkFault,
    /// The desk made as many calls as it may.
    PassSpent,
    /// Out of memory.
    NoMemory,
}

/// Why a socket ends where the desk didn't answer all calls of a text.
pub fn end_of_desk(error: DeskError) -> WsEnd
    ensures { result ≡ end_of_desk error }
{
    match error {
        DeskError::PassSpent => WsEnd::PassSpent,
        DeskError::NoMemory => WsEnd::NoMemory,
    }
}

/// How a socket was served.
#[derive(Drop)]
pub struct WsServed {
    /// At which entries each call for a text was answered, in order; those of looks at states aren't kept.
    pub fronts: Vec<Front>,
    /// The number of replies that were sent.
    pub replies: u64,
    /// How the socket ended.
    pub end: WsEnd,
}
