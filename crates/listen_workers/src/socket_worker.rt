//! A worker of sockets.
ghost use Rattle.std.specs.Prelude.{◌≡◌, length};
ghost use Rattle.listen_workers.specs.SocketWork.{WorksOnSockets};

use io_edge::clock::Clock;
use listen_edge::job::{WorkerDone, WorkerEnd};
use session_doc::Site;
use spec_batch::desk::Desk;
use std::alloc::Global;
use ws_edge::accept::WsAccept;
use ws_serve::serve::serve_socket;

/// Looks at so many handshakes, one after the other, serves each socket that comes of one for its user, and hands it back.
///
/// It ends before all are looked at where what hands out links fails, or has no memory for one. No end of a socket ends it. It takes no memory of its own. It may wait, as what
/// hands out links does and the desk.
pub fn socket_worker<A: WsAccept, D: Desk, C: Clock>(
    alloc: Global,
    site: &Site,
    accepter: &mut A,
    desk: &mut D,
    clock: &mut C,
    handshakes: u64,
) -> WorkerDone
    requires { (D.shown desk.old).accounts ≡ length site.now.accounts }
    ensures { WorksOnSockets site.now handshakes (A.shown accepter.old) (A.shown accepter.new)
        (record { clock = C.moments clock.old; desk = D.shown desk.old }) (record { clock = C.moments clock.new; desk = D.shown desk.new }) result }
{
    for looked in 0..handshakes {
        let (user, mut link) = match accepter.accept(site) {
            Ok(Some(socket)) => socket,
            Ok(None) => continue,
            Err(_) => {
                return WorkerDone {
                    served: looked,
                    end: WorkerEnd::AcceptFault,
                };
            }
        };
        let served = serve_socket(alloc, site.user(user), &mut link, desk, clock);
        accepter.ended(link, served);
    }
    WorkerDone {
        served: handshakes,
        end: WorkerEnd::All,
    }
}
