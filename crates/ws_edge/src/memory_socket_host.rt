//! Hosts of sockets in memory.
ghost use Rattle.std.specs.Prelude.{◌≡◌, ◌+◌, [], IfOk, None, Some};
ghost use Rattle.io_edge.specs.FailingCalls.{faults_of};

use crate::accept::{ThreadAccept, WsAccept};
use crate::link::LinkError;
use crate::memory_accept::MemSocket;
use crate::memory_link::MemLink;
use crate::socket_host::SocketHost;
use io_edge::failing_calls::FailingCalls;
use listen_edge::host::HostError;
use session_doc::Site;
use spec_sockets::served::WsServed;
use std::alloc::{AllocError, Global};
use std::sync::{Arc, Mutex, Wait};

/// A link of a host in memory that was served.
#[derive(Drop)]
pub struct ShelvedLink {
    /// The worker whose accepter it came back to.
    pub worker: u32,
    /// The link.
    pub link: MemLink,
    /// How it was served.
    pub served: WsServed,
}

type LinkShelf = Arc<Mutex<Vec<ShelvedLink>>>;

/// Hands out its sockets in order, and tells none of them. Links that come back lie on the shelf of its host. One of no user of the site is a handshake that comes to nothing, and so
/// is one that is `None`; where there is no more it fails.
#[derive(Drop)]
pub struct ShelfAccept<W> {
    runtime: W,
    worker: u32,
    waiting: Vec<Option<MemSocket>>,
    shelf: LinkShelf,
    asked: u64,
    faults: u64,
}

impl<W: Wait + Send + Drop + 'static> WsAccept for ShelfAccept<W> {
    type Link = MemLink;

    ghost shown = { λ a. record { ports = None; sockets = None; asked = a.asked; faults = a.faults } };

    fn open(&mut self, _port: u16) -> Result<(), LinkError> {
        Ok(())
    }

    fn accept(&mut self, site: &Site) -> Result<Option<(u32, MemLink)>, LinkError> {
        if self.waiting.is_empty() {
            self.faults = self.faults.saturating_add(1);
            return Err(LinkError::Failed);
        }
        self.asked = self.asked.saturating_add(1);
        match self.waiting.remove(0) {
            Some(socket) if socket.user < site.users() => Ok(Some((socket.user, socket.link))),
            _ => Ok(None),
        }
    }

    // Memory for the shelf was taken when the host was made.
    fn ended(&mut self, link: MemLink, served: WsServed) {
        let mut shelf = self.shelf.lock(&self.runtime);
        let _ = shelf.push(ShelvedLink {
            worker: self.worker,
            link,
            served,
        });
    }

    ghost balanced = { λ a. tt };
}

impl<W: Wait + Send + Drop + 'static> ThreadAccept for ShelfAccept<W> {}

/// Makes accepters of its sockets, those of the first accepter first, and tells what it was asked for. It fails at the calls that it lists.
#[derive(Drop)]
pub struct MemSocketHost<W> {
    alloc: Global,
    runtime: W,
    waiting: Vec<Vec<Option<MemSocket>>>,
    asked: Vec<(u16, u32)>,
    shelf: LinkShelf,
    failing: FailingCalls,
}

impl<W: Wait + Copy + Send + Drop + 'static> MemSocketHost<W> {
    ghost use Rattle.ws_edge.specs.MemoryForms.{failing_accepters};

    /// Makes a host with a list of sockets for each accepter. The calls of `accepter` whose numbers, from 0, stand in `failing` fail.
    ///
    /// Takes memory for the shelf: for the links of all sockets.
    pub fn new(
        alloc: Global,
        runtime: W,
        waiting: Vec<Vec<Option<MemSocket>>>,
        failing: Vec<u64>,
    ) -> Result<MemSocketHost<W>, AllocError>
        ensures asked { IfOk result (λ h. (⟦<MemSocketHost<W> as SocketHost>⟧.shown h).asked ≡ Some []) }
        ensures faults { IfOk result (λ h. (⟦<MemSocketHost<W> as SocketHost>⟧.shown h).faults ≡ 0) }
        ensures failing { IfOk result (λ h. failing_accepters h ≡ failing.items) }
    {
        let mut all = 0usize;
        for sockets in &waiting {
            all = all.saturating_add(sockets.len());
        }
        let shelf = Vec::with_capacity(alloc, all)?;
        Ok(MemSocketHost {
            alloc,
            runtime,
            waiting,
            asked: Vec::new(alloc),
            shelf: Arc::new(alloc, Mutex::new(shelf))?,
            failing: FailingCalls::new(failing),
        })
    }

    /// Takes the first link from the shelf that came back to the accepter of this worker, where there is one. It waits for those who put links there.
    pub fn take_link(&self, worker: u32) -> Option<ShelvedLink> {
        let mut shelf = self.shelf.lock(&self.runtime);
        let place = shelf.iter().position(|shelved| shelved.worker == worker)?;
        Some(shelf.remove(place))
    }
}

impl<W: Wait + Copy + Send + Drop + 'static> SocketHost for MemSocketHost<W> {
    type A = ShelfAccept<W>;

    ghost shown = { λ h. record { asked = Some h.asked.items; faults = faults_of h.failing } };

    fn accepter(&mut self, port: u16, worker: u32) -> Result<ShelfAccept<W>, HostError> {
        if self.asked.push((port, worker)).is_err() {
            return Err(HostError::NoMemory);
        }
        if self.failing.next_fails() {
            return Err(HostError::Failed);
        }
        let waiting = match self.waiting.is_empty() {
            true => Vec::new(self.alloc),
            false => self.waiting.remove(0),
        };
        Ok(ShelfAccept {
            runtime: self.runtime,
            worker,
            waiting,
            shelf: Arc::try_clone(&self.shelf)?,
            asked: 0,
            faults: 0,
        })
    }

    fn tell_serving(&self, _port: u16, _workers: u32) {}
}
