//! The command `listen`.
ghost use Rattle.std.specs.Arc.{arc_value};
ghost use Rattle.std.specs.Prelude.{◌≡◌, ◌≤◌, ◌+◌, All, IfOk, length, map, option_map};
ghost use Rattle.account_desk.specs.FreshDesk.{account_rules};
ghost use Rattle.account_desk.specs.SharedDesk.{shown_by_passes};
ghost use Rattle.command_line.specs.Commands.{all_workers, socket_port, socket_workers};
ghost use Rattle.command_line.specs.Shown.{crew_shown, listen_shown};
ghost use Rattle.command_line.specs.declared.listen.TheConstants.{MAX_CONNECTIONS};
ghost use Rattle.jmapd_listen.specs.Hosts.{OpensPosts, serving_sockets};
ghost use Rattle.jmapd_listen.specs.Listens.{AreDesksOf, IsUnused, Listens, ServesSite};
ghost use Rattle.listen_workers.specs.Listeners.{OpensHow};
ghost use Rattle.listen_workers.specs.Posts.{is_for_sockets};
ghost use Rattle.listen_workers.specs.PostsShown.{post_shown};

use crate::job::WorkerJob;
use account_core::account::Account;
use account_desk::shared_desk::SharedDesk;
use account_desk::sole_desk::fresh_accounts;
use account_lock::locked::Locked;
use command_line::crew::SocketCrew;
use command_line::listen::Listen;
use io_edge::clock::Clock;
use io_edge::opener::Opener;
use jmapd_run::start::load_site;
use jmapd_run::status::Status;
use listen_edge::host::{Host, HostError};
use listen_edge::listener::ThreadListener;
use listen_edge::spawner::Spawner;
use listen_workers::accepters::open_accepters;
use listen_workers::crew::{all_served, run_all};
use listen_workers::desks::open_desks;
use listen_workers::listeners::open_listeners;
use listen_workers::post::{Post, posts_at};
use session_doc::Site;
use spec_batch::desk::Desk;
use std::alloc::{AllocError, Global};
use std::sync::{Arc, Wait};
use ws_edge::accept::ThreadAccept;
use ws_edge::socket_host::SocketHost;

/// Runs the command `listen`: workers share the accounts of a site. Each serves one connection of its listener after the other, or one socket of what hands out links to it, until it
/// has taken as many connections, or handshakes, as it is to.
///
/// The configuration is loaded once (`OpenFault`, `Config`). Then all listeners are made, those of worker 0 first, and then all that hands out links: the first that its host fails to
/// make ends it, before a worker is started (`OpenFault`). A worker that can't accept ends alone, and `OpenFault` is told when all have ended. Takes memory for what workers share
/// before the first is started; a connection or a socket that runs out of memory ends alone.
///
/// It waits for connections, sockets and their messages, and for turns on accounts: nothing promises that it returns.
pub fn listen<
    O: Opener,
    H: Host,
    G: SocketHost,
    S: Spawner,
    C: Clock + Copy + Send + Drop + 'static,
    W: Wait + Copy + Send + Drop + 'static,
>(
    alloc: Global,
    runtime: W,
    asked: &Listen<'_>,
    opener: &mut O,
    host: &mut H,
    socket_host: &mut G,
    spawner: &mut S,
    clock: C,
) -> Status
    ensures listens { Listens (record { connections = H.shown host.old; sockets = G.shown socket_host.old }) (record { connections = H.shown host.new; sockets = G.shown socket_host.new })
        (record { faults = S.faults spawner.old; served = S.served spawner.old }) (record { faults = S.faults spawner.new; served = S.served spawner.new })
        (O.shown opener.old) (O.shown opener.new) (listen_shown asked.now) result }
    ensures files { (O.shown opener.new).files ≡ (O.shown opener.old).files }
    ensures once { (O.shown opener.new).loads ≤ (O.shown opener.old).loads + 1 }
{
    let site = match load_site(alloc, opener, asked.config) {
        Ok(site) => site,
        Err(status) => return status,
    };
    let Ok(desks) = site_desks(alloc, runtime, &site, asked.all_workers()) else {
        return Status::NoMemory;
    };
    serve_site(alloc, asked, site, desks, host, socket_host, spawner, clock)
}

// A desk for each worker, over fresh accounts of a site that they share.
fn site_desks<W: Wait + Copy + Drop>(
    alloc: Global,
    runtime: W,
    site: &Site,
    workers: u32,
) -> Result<Vec<SharedDesk<W, Locked<Account>>>, AllocError>
    requires { (1 ≤ workers) × (workers ≤ 256) }
    ensures workers { IfOk result (λ desks. length desks.items ≡ workers) }
    ensures unused { IfOk result (λ desks. All (λ desk. IsUnused site.now (shown_by_passes account_rules desk)) desks.items) }
    ensures of_site { IfOk result (λ desks. AreDesksOf site.now workers (map (shown_by_passes account_rules) desks.items)) }
{
    open_desks(alloc, runtime, fresh_accounts(alloc, site)?, workers)
}

/// Serves the users of a site by workers, each with its desk, and has the hosts tell so. Takes memory for what they share, before the first is started.
pub fn serve_site<
    H: Host,
    G: SocketHost,
    S: Spawner,
    C: Clock + Copy + Send + Drop + 'static,
    D: Desk + Send + Drop + 'static,
>(
    alloc: Global,
    asked: &Listen<'_>,
    site: Site,
    desks: Vec<D>,
    host: &mut H,
    socket_host: &mut G,
    spawner: &mut S,
    clock: C,
) -> Status
    requires workers { length desks.items ≡ all_workers (listen_shown asked.now) }
    requires unused { All (λ desk. IsUnused site (D.shown desk)) desks.items }
    ensures { ServesSite site (map D.shown desks.items) (listen_shown asked.now)
        (record { connections = H.shown host.old; sockets = G.shown socket_host.old }) (record { connections = H.shown host.new; sockets = G.shown socket_host.new })
        (record { faults = S.faults spawner.old; served = S.served spawner.old }) (record { faults = S.faults spawner.new; served = S.served spawner.new }) result }
{
    let posts = match open_posts(alloc, asked, host, socket_host) {
        Ok(posts) => posts,
        Err(HostError::Failed) => return Status::OpenFault,
        Err(HostError::NoMemory) => return Status::NoMemory,
    };
    let accounts = site.accounts();
    let Ok(jobs) = jobs_of(alloc, site, posts, desks, clock, asked.connections) else {
        return Status::NoMemory;
    };
    host.tell_serving(asked.port, asked.workers, accounts);
    tell_sockets(&*socket_host, asked.sockets);
    let Ok(backs) = run_all(alloc, spawner, jobs) else {
        return Status::NoMemory;
    };
    if all_served(&backs) {
        Status::Done
    } else {
        Status::OpenFault
    }
}

type Posts<L, A> = Vec<Post<L, A>>;

// The posts of all workers: a listener for each of connections, and then for each of sockets what hands out links.
fn open_posts<H: Host, G: SocketHost>(
    alloc: Global,
    asked: &Listen<'_>,
    host: &mut H,
    socket_host: &mut G,
) -> Result<Posts<H::L, G::A>, HostError>
    ensures how { OpensPosts (listen_shown asked.now) (record { connections = H.shown host.old; sockets = G.shown socket_host.old })
        (record { connections = H.shown host.new; sockets = G.shown socket_host.new }) result }
    ensures count { IfOk result (λ posts. length posts.items ≡ all_workers (listen_shown asked.now)) }
    ensures kinds { IfOk result (λ posts. map (λ post. is_for_sockets (post_shown H.L.shown G.A.shown post)) posts.items ≡ serving_sockets (listen_shown asked.now)) }
{
    let listeners = match open_listeners(alloc, host, asked.port, asked.workers) {
        Ok(listeners) => listeners,
        Err(error) => return Err(error),
    };
    let accepters = match open_sockets(alloc, socket_host, asked.sockets) {
        Ok(accepters) => accepters,
        Err(error) => return Err(error),
    };
    match posts_at(alloc, listeners, accepters) {
        Ok(posts) => Ok(posts),
        Err(_) => Err(HostError::NoMemory),
    }
}

// What hands out links to those who serve sockets.
#[tactic(auto, using(crate::proofs::PostLemmas::none_asked))]
fn open_sockets<G: SocketHost>(
    alloc: Global,
    host: &mut G,
    crew: Option<SocketCrew>,
) -> Result<Vec<G::A>, HostError>
    ensures how { OpensHow (socket_port (option_map crew_shown crew)) (socket_workers (option_map crew_shown crew)) (G.shown host.old) (G.shown host.new) result }
    ensures count { IfOk result (λ accepters. length accepters.items ≡ socket_workers (option_map crew_shown crew)) }
{
    match crew {
        Some(crew) => open_accepters(alloc, host, crew.port, crew.workers),
        None => Ok(Vec::new(alloc)),
    }
}

fn tell_sockets<G: SocketHost>(host: &G, crew: Option<SocketCrew>) {
    if let Some(crew) = crew {
        host.tell_serving(crew.port, crew.workers);
    }
}

type Jobs<L, A, C, D> = Vec<WorkerJob<L, A, C, D>>;

// The workers, each with its post and its desk.
fn jobs_of<
    L: ThreadListener,
    A: ThreadAccept,
    C: Clock + Copy + Send + Drop + 'static,
    D: Desk + Send + Drop + 'static,
>(
    alloc: Global,
    site: Site,
    posts: Vec<Post<L, A>>,
    desks: Vec<D>,
    clock: C,
    connections: u64,
) -> Result<Jobs<L, A, C, D>, AllocError>
    requires workers { length desks.items ≡ length posts.items }
    requires unused { All (λ desk. IsUnused site (D.shown desk)) desks.items }
    requires connections { (1 ≤ connections) × (connections ≤ MAX_CONNECTIONS) }
    ensures posts { IfOk result (λ jobs. map (λ job. job.post) jobs.items ≡ posts.items) }
    ensures desks { IfOk result (λ jobs. map (λ job. job.desk) jobs.items ≡ desks.items) }
    ensures each { IfOk result (λ jobs. All (λ job. (job.connections ≡ connections) × (arc_value job.site ≡ site)) jobs.items) }
{
    let site = Arc::new(alloc, site)?;
    let mut jobs = Vec::with_capacity(alloc, posts.len())?;
    for (post, desk) in posts.into_iter().zip(desks) {
        jobs.push_reserved(WorkerJob {
            alloc,
            site: Arc::try_clone(&site)?,
            post,
            desk,
            clock,
            connections,
        });
    }
    Ok(jobs)
}
