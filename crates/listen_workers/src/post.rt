//! Where workers stand.
ghost use Rattle.std.specs.Prelude.{◌≡◌, ◌++◌, IfOk, OnOk, length, map};
ghost use Rattle.listen_workers.specs.PostsShown.{post_shown};
ghost use Rattle.listen_workers.specs.Posts.{WorksAt};
ghost use Rattle.listen_workers.specs.declared.post.Post.TheVariants.{Connections, Sockets};

use crate::socket_worker::socket_worker;
use crate::worker::worker;
use io_edge::clock::Clock;
use listen_edge::job::WorkerDone;
use listen_edge::listener::Listener;
use session_doc::Site;
use spec_batch::desk::Desk;
use std::alloc::{AllocError, Global};
use ws_edge::accept::WsAccept;

/// Where a worker stands, by which it serves connections or sockets.
#[derive(Drop)]
pub enum Post<L, A> {
    /// At a listener of connections.
    Connections(L),
    /// At what hands out the links of sockets.
    Sockets(A),
}

/// A worker of connections, or of sockets, for so many of them: `worker` or `socket_worker`.
pub fn work<L: Listener, A: WsAccept, D: Desk, C: Clock>(
    alloc: Global,
    site: &Site,
    post: &mut Post<L, A>,
    desk: &mut D,
    clock: &mut C,
    most: u64,
) -> WorkerDone
    requires { (D.shown desk.old).accounts ≡ length site.now.accounts }
    ensures { WorksAt site.now most (post_shown L.shown A.shown post.old) (post_shown L.shown A.shown post.new)
        (record { clock = C.moments clock.old; desk = D.shown desk.old }) (record { clock = C.moments clock.new; desk = D.shown desk.new }) result }
{
    match post {
        Post::Connections(listener) => worker(alloc, site, listener, desk, clock, most),
        Post::Sockets(accepter) => socket_worker(alloc, site, accepter, desk, clock, most),
    }
}

/// A post at each listener, and then one at each of what hands out links. Takes memory for the list of them.
pub fn posts_at<L: Drop, A: Drop>(
    alloc: Global,
    listeners: Vec<L>,
    accepters: Vec<A>,
) -> Result<Vec<Post<L, A>>, AllocError>
    ensures { IfOk result (λ posts. posts.items ≡ map Connections listeners.items ++ map Sockets accepters.items) }
{
    let mut posts = Vec::new(alloc);
    add_listeners(&mut posts, listeners)?;
    add_accepters(&mut posts, accepters)?;
    Ok(posts)
}

fn add_listeners<L: Drop, A: Drop>(
    posts: &mut Vec<Post<L, A>>,
    listeners: Vec<L>,
) -> Result<(), AllocError>
    ensures { OnOk result (posts.new.items ≡ posts.old.items ++ map Connections listeners.items) }
{
    for listener in listeners {
        posts.push(Post::Connections(listener))?;
    }
    Ok(())
}

fn add_accepters<L: Drop, A: Drop>(
    posts: &mut Vec<Post<L, A>>,
    accepters: Vec<A>,
) -> Result<(), AllocError>
    ensures { OnOk result (posts.new.items ≡ posts.old.items ++ map Sockets accepters.items) }
{
    for accepter in accepters {
        posts.push(Post::Sockets(accepter))?;
    }
    Ok(())
}
