//! Links in memory.
ghost use Rattle.std.specs.Prelude.{◌≡◌, ◌+◌, [], Some};
ghost use Rattle.io_edge.specs.FailingCalls.{faults_of};

use crate::link::{LinkError, WsIn, WsLink};
use http_edge::bytes::Bytes;
use io_edge::failing_calls::FailingCalls;
use spec_sockets::message::WsMessage;
use std::alloc::Global;

/// Gives its messages in order, and holds what was sent. `None` among them is a time in which no message comes. It fails at the calls that it lists.
#[derive(Drop)]
pub struct MemLink {
    alloc: Global,
    waiting: Vec<Option<WsMessage>>,
    sent: Vec<Bytes>,
    failing_next: FailingCalls,
    failing_send: FailingCalls,
}

impl MemLink {
    ghost use Rattle.ws_edge.specs.MemoryForms.{failing_nexts, failing_sends, messages_among};

    /// Makes a link of these messages, and of the times between them in which none comes. The calls of `next` and of `send` whose numbers, from 0, are listed fail. Takes no memory.
    pub fn new(
        alloc: Global,
        messages: Vec<Option<WsMessage>>,
        failing_next: Vec<u64>,
        failing_send: Vec<u64>,
    ) -> MemLink
        ensures shown { ⟦<MemLink as WsLink>⟧.shown result ≡ record { left = Some (messages_among messages.items); sent = Some []; faults = 0 } }
        ensures nexts { failing_nexts result ≡ failing_next.items }
        ensures sends { failing_sends result ≡ failing_send.items }
    {
        MemLink {
            alloc,
            waiting: messages,
            sent: Vec::new(alloc),
            failing_next: FailingCalls::new(failing_next),
            failing_send: FailingCalls::new(failing_send),
        }
    }

    /// The texts that were sent. Takes no memory.
    pub fn sent(&self) -> &[Bytes]
        ensures { Some result.now ≡ (⟦<MemLink as WsLink>⟧.shown self.now).sent }
    {
        &self.sent
    }
}

impl WsLink for MemLink {
    ghost use Rattle.ws_edge.specs.MemoryForms.{messages_among};

    ghost shown = { λ l. record { left = Some (messages_among l.waiting.items); sent = Some l.sent.items; faults = faults_of l.failing_next + faults_of l.failing_send } };

    fn next(&mut self) -> Result<WsIn, LinkError> {
        if self.failing_next.next_fails() {
            return Err(LinkError::Failed);
        }
        if self.waiting.is_empty() {
            return Ok(WsIn::Closed);
        }
        match self.waiting.remove(0) {
            Some(WsMessage::Text(text)) => Ok(WsIn::Text(text)),
            Some(WsMessage::Binary) => Ok(WsIn::Binary),
            None => Ok(WsIn::Quiet),
        }
    }

    fn send(&mut self, text: &[u8]) -> Result<(), LinkError> {
        if self.failing_send.next_fails() {
            return Err(LinkError::Failed);
        }
        let Ok(copy) = Bytes::from_slice(self.alloc, text) else {
            return Err(LinkError::NoMemory);
        };
        match self.sent.push(copy) {
            Ok(()) => Ok(()),
            Err(_) => Err(LinkError::NoMemory),
        }
    }
}
