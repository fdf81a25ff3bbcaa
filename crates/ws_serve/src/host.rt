//! Sockets, one after the other.
ghost use Rattle.std.specs.Prelude.{◌≡◌, length};
ghost use Rattle.ws_serve.specs.Hosting.{HostsSockets};

use crate::serve::serve_socket;
use io_edge::clock::Clock;
use session_doc::Site;
use spec_batch::desk::Desk;
use std::alloc::Global;
use ws_edge::accept::WsAccept;
use ws_edge::link::LinkError;

/// Why no more sockets are accepted.
#[derive(Clone, Copy, Debug, PartialEq, Eq, Drop)]
pub enum HostEnd {
    /// As many handshakes were looked at as were to be.
    All,
    /// What accepts sockets failed.
    AcceptFault,
    /// Out of memory for a further socket.
    NoMemory,
}

/// Looks at so many handshakes, and serves each socket that comes of them for its user before the next.
///
/// No end of a socket ends it. It takes no memory of its own, and may wait, as what accepts sockets does, and the desk.
pub fn host_sockets<A: WsAccept, D: Desk, C: Clock>(
    alloc: Global,
    site: &Site,
    handshakes: u64,
    accepter: &mut A,
    desk: &mut D,
    clock: &mut C,
) -> HostEnd
    requires { (D.shown desk.old).accounts ≡ length site.now.accounts }
    ensures { HostsSockets site.now handshakes (A.shown accepter.old) (A.shown accepter.new)
        (record { clock = C.moments clock.old; desk = D.shown desk.old }) (record { clock = C.moments clock.new; desk = D.shown desk.new }) result }
{
    for looked in 0..handshakes {
        let (user, mut link) = match accepter.accept(site) {
            Ok(Some(socket)) => socket,
            Ok(None) => continue,
            Err(LinkError::Failed) => return HostEnd::AcceptFault,
            Err(LinkError::NoMemory) => return HostEnd::NoMemory,
        };
        let served = serve_socket(alloc, site.user(user), &mut link, desk, clock);
        accepter.ended(link, served);
    }
    HostEnd::All
}
