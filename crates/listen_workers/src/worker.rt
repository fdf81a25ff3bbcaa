//! A worker.
ghost use Rattle.std.specs.Prelude.{◌≡◌, ◌↔◌, IsTrue, length};
ghost use Rattle.listen_workers.specs.Working.{Works};

use conn_serve::serve::serve_connection;
use io_edge::clock::Clock;
use listen_edge::job::{WorkerDone, WorkerEnd};
use listen_edge::listener::Listener;
use session_doc::Site;
use spec_batch::desk::Desk;
use spec_connection::served::ConnEnd;
use std::alloc::Global;

/// Accepts so many connections of a listener, one after the other, serves each for the users of a site, and hands it back. The listener is told of their requests.
///
/// It ends before all are served where the listener fails, and where the desk made as many calls as it may. A connection that ends out of memory, by a
/// fault of its source or sink, or for what its peer sends, ends nothing but itself. It takes no memory of its own. It may wait, as the listener does and the desk.
pub fn worker<L: Listener, D: Desk, C: Clock>(
    alloc: Global,
    site: &Site,
    listener: &mut L,
    desk: &mut D,
    clock: &mut C,
    connections: u64,
) -> WorkerDone
    requires { (D.shown desk.old).accounts ≡ length site.now.accounts }
    ensures { Works site.now connections (L.shown listener.old) (L.shown listener.new)
        (record { clock = C.moments clock.old; desk = D.shown desk.old }) (record { clock = C.moments clock.new; desk = D.shown desk.new }) result }
{
    for served in 0..connections {
        let Ok((mut input, mut output)) = listener.accept() else {
            return WorkerDone {
                served,
                end: WorkerEnd::AcceptFault,
            };
        };
        let how = serve_connection(
            alloc,
            site,
            &mut input,
            &mut output,
            desk,
            clock,
            &*listener,
        );
        let is_last = is_spent(how.end);
        listener.ended(input, output, how);
        if is_last {
            return WorkerDone {
                served: served + 1,
                end: WorkerEnd::PassSpent,
            };
        }
    }
    WorkerDone {
        served: connections,
        end: WorkerEnd::All,
    }
}

// Whether the desk made as many calls as it may.
fn is_spent(end: ConnEnd) -> bool
    ensures { IsTrue result ↔ (end ≡ ConnEnd.PassSpent) }
{
    match end {
        ConnEnd::PassSpent => true,
        _ => false,
    }
}
