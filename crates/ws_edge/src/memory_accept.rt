//! What hands out links in memory.
ghost use Rattle.std.specs.Prelude.{◌≡◌, ◌+◌, ◌≤◌, [], IfOk, Some, length, map, vec_capacity};
ghost use Rattle.io_edge.specs.FailingCalls.{faults_of};

use crate::accept::WsAccept;
use crate::link::{LinkError, WsLink};
use crate::memory_link::MemLink;
use io_edge::failing_calls::FailingCalls;
use session_doc::Site;
use spec_sockets::served::WsServed;
use std::alloc::{AllocError, Global};
use std::snapshot::Snapshot;

/// A socket in memory: the number of its user, and its link.
#[derive(Drop)]
pub struct MemSocket {
    /// The number of the user.
    pub user: u32,
    /// The link.
    pub link: MemLink,
}

/// A link in memory that came back.
#[derive(Drop)]
pub struct MemSocketBack {
    /// The link.
    pub link: MemLink,
    /// How it was served.
    pub served: WsServed,
}

/// Hands out its sockets in order, and tells them. One of no user of the site is a handshake that comes to nothing, and so is one that is `None`.
///
/// It fails at the calls of `accept` that it lists, and where it has no more. Opening a port never fails.
#[derive(Drop)]
pub struct MemAccept {
    waiting: Vec<Option<MemSocket>>,
    ports: Vec<u16>,
    handed: Vec<Snapshot<MemSocket>>,
    back: Vec<MemSocketBack>,
    asked: u64,
    failing: FailingCalls,
    missed: u64,
    ghost hands_all: { length handed.items + length waiting.items ≤ vec_capacity handed },
    ghost takes_all: { length handed.items + length waiting.items ≤ vec_capacity back },
    ghost balanced: { length back.items ≤ length handed.items },
}

impl MemAccept {
    ghost use Rattle.ws_edge.specs.MemoryForms.{failing_handshakes};

    /// Makes one of these sockets. The calls of `accept` whose numbers, from 0, stand in `failing` fail.
    ///
    /// Takes all the memory that it needs, but for the ports that it opens.
    pub fn new(
        alloc: Global,
        sockets: Vec<Option<MemSocket>>,
        failing: Vec<u64>,
    ) -> Result<MemAccept, AllocError>
        ensures shown { IfOk result (λ a. ⟦<MemAccept as WsAccept>⟧.shown a ≡ record { ports = Some []; sockets = Some (record { handed = []; back = [] }); asked = 0; faults = 0 }) }
        ensures failing { IfOk result (λ a. failing_handshakes a ≡ failing.items) }
    {
        let handed = Vec::with_capacity(alloc, sockets.len())?;
        let back = Vec::with_capacity(alloc, sockets.len())?;
        Ok(MemAccept {
            waiting: sockets,
            ports: Vec::new(alloc),
            handed,
            back,
            asked: 0,
            failing: FailingCalls::new(failing),
            missed: 0,
        })
    }

    /// The links that came back, in order. Takes no memory.
    pub fn back(&self) -> &[MemSocketBack]
        ensures { result.now ≡ self.now.back.items }
    {
        &self.back
    }
}

impl WsAccept for MemAccept {
    type Link = MemLink;

    ghost use Rattle.ws_edge.specs.MemoryForms.{no_more_mapped};

    ghost shown = { λ a. record {
      ports = Some a.ports.items;
      sockets = Some (record {
        handed = map (λ s. record { user = s.value.user; link = ⟦<MemLink as WsLink>⟧.shown s.value.link }) a.handed.items;
        back = map (λ s. record { link = ⟦<MemLink as WsLink>⟧.shown s.link; served = s.served }) a.back.items;
      });
      asked = a.asked;
      faults = faults_of a.failing + a.missed;
    } };

    fn open(&mut self, port: u16) -> Result<(), LinkError> {
        match self.ports.push(port) {
            Ok(()) => Ok(()),
            Err(_) => Err(LinkError::NoMemory),
        }
    }

    fn accept(&mut self, site: &Site) -> Result<Option<(u32, MemLink)>, LinkError> {
        if self.failing.next_fails() {
            return Err(LinkError::Failed);
        }
        if self.waiting.is_empty() {
            self.missed = self.missed.saturating_add(1);
            return Err(LinkError::Failed);
        }
        self.asked = self.asked.saturating_add(1);
        match self.waiting.remove(0) {
            Some(socket) if socket.user < site.users() => {
                self.handed.push_reserved(Snapshot::of(&socket));
                Ok(Some((socket.user, socket.link)))
            }
            _ => Ok(None),
        }
    }

    fn ended(&mut self, link: MemLink, served: WsServed) {
        self.back.push_reserved(MemSocketBack { link, served });
    }

    ghost balanced = { λ a. no_more_mapped _ _ a.back.items a.handed.items a.balanced };
}
