//! What follows of a socket that was served. Laws; they do nothing.
ghost use Rattle.ws_serve.specs.Chained.{HostsStandInHistories, SocketsAreNeverSpent};
ghost use Rattle.ws_serve.specs.Complete.{FaultlessSocketsAreAnswered};
ghost use Rattle.ws_serve.specs.Histories.{SocketsStandInHistories};

/// Where the link's count of faults did not rise and the desk may make more calls, a socket ran out of memory, or all its turns were had whole, texts and looks, and nothing else was sent.
pub fn faultless_sockets_are_answered()
    ensures { FaultlessSocketsAreAnswered }
{}

/// However a socket ended, the calls of its turns stand in the histories of the desk's accounts, one behind the other, those for texts each with its front, and
/// no other entry there is the desk's. It made at most 16 calls for each of the texts, and 800,000 to look at states.
pub fn sockets_stand_in_histories()
    ensures { SocketsStandInHistories }
{}

/// However its sockets ended, the calls of their turns stand in the histories of the desk's accounts, those for texts with the fronts of the sockets, joined in order,
/// and no other entry there is the desk's. It made at most 960,000 calls for each socket.
pub fn hosts_stand_in_histories()
    ensures { HostsStandInHistories }
{}

/// Where a desk has more calls left than so many sockets may ask for, none of them ends for want of calls.
pub fn sockets_are_never_spent()
    ensures { SocketsAreNeverSpent }
{}
