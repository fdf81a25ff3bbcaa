//! The job of a worker.
ghost use Rattle.std.specs.Prelude.{◌≡◌, ◌≤◌};
ghost use Rattle.std.specs.Arc.{arc_value};
ghost use Rattle.command_line.specs.declared.listen.TheConstants.{MAX_CONNECTIONS};
ghost use Rattle.jmapd_listen.specs.Listens.{IsUnused, WorksWhole};
ghost use Rattle.listen_workers.specs.PostsShown.{post_shown};

use io_edge::clock::Clock;
use listen_edge::job::{Finished, Job, WorkerDone};
use listen_edge::listener::ThreadListener;
use listen_workers::post::{Post, work};
use session_doc::Site;
use spec_batch::desk::Desk;
use std::alloc::Global;
use std::sync::Arc;
use ws_edge::accept::ThreadAccept;

/// A worker that is to take so many connections, or handshakes of sockets, at its post, by its desk.
///
/// Its type keeps that the desk is over the accounts of the site and has made no call.
#[derive(Drop)]
pub struct WorkerJob<L, A, C, D: Desk> {
    pub(crate) alloc: Global,
    pub(crate) site: Arc<Site>,
    pub(crate) post: Post<L, A>,
    pub(crate) desk: D,
    pub(crate) clock: C,
    pub(crate) connections: u64,
    ghost unused: { IsUnused (arc_value site) (D.shown desk) },
    ghost within: { (1 ≤ connections) × (connections ≤ MAX_CONNECTIONS) },
}

/// A worker that ended.
#[derive(Drop)]
pub struct WorkerBack<L, A, C, D> {
    pub(crate) post: Post<L, A>,
    pub(crate) desk: D,
    pub(crate) clock: C,
    pub(crate) done: WorkerDone,
}

impl<
    L: ThreadListener,
    A: ThreadAccept,
    C: Clock + Send + Drop + 'static,
    D: Desk + Send + Drop + 'static,
> Finished for WorkerBack<L, A, C, D> {
    ghost ended = { λ back. back.done };

    fn done(&self) -> WorkerDone {
        self.done
    }
}

impl<
    L: ThreadListener,
    A: ThreadAccept,
    C: Clock + Send + Drop + 'static,
    D: Desk + Send + Drop + 'static,
> Job for WorkerJob<L, A, C, D> {
    type Back = WorkerBack<L, A, C, D>;

    // What a call of `work` at its post and over its desk may leave and answer; and it never runs out of calls.
    ghost may_answer = { λ job back. WorksWhole (arc_value job.site) job.connections (post_shown L.shown A.shown job.post) (post_shown L.shown A.shown back.post)
        (record { clock = C.moments job.clock; desk = D.shown job.desk }) (record { clock = C.moments back.clock; desk = D.shown back.desk }) back.done };

    fn go(self) -> WorkerBack<L, A, C, D> {
        let WorkerJob {
            alloc,
            site,
            mut post,
            mut desk,
            mut clock,
            connections,
        } = self;
        let done = work(alloc, &site, &mut post, &mut desk, &mut clock, connections);
        WorkerBack {
            post,
            desk,
            clock,
            done,
        }
    }
}
