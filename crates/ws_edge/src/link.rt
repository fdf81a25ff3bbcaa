//! Links: where WebSocket messages come from and go to.
ghost use Rattle.std.specs.Prelude.{◌≡◌, ◌≤◌, ◌∷◌, [], Ok, Err, IfOk, OnOk, OnErr};
ghost use Rattle.io_edge.specs.Outside.{Rose};
ghost use Rattle.spec_sockets.specs.Links.{HasNoMoreMessages, LinkShown, SendsTexts, TakesMessages};
ghost use Rattle.ws_edge.specs.Taking.{taken_by};

use spec_json::text::Text;

/// What a link gives.
#[derive(Drop)]
pub enum WsIn {
    /// A text.
    Text(Text),
    /// A message that is no text.
    Binary,
    /// No message came for as long as the link waits for one; there may be more.
    Quiet,
    /// No message is left.
    Closed,
}

/// Why a link, or what hands links out, did nothing.
#[derive(Clone, Copy, Debug, PartialEq, Eq, Drop)]
pub enum LinkError {
    /// It failed.
    Failed,
    /// Out of memory.
    NoMemory,
}

/// A link of WebSocket messages.
pub trait WsLink {
    /// What contracts see of the link.
    ghost shown: { Self → LinkShown };

    /// The next message, for which it may wait for as long as its patience lasts. Takes memory for it.
    fn next(&mut self) -> Result<WsIn, LinkError>
        ensures ok { IfOk result (λ given. TakesMessages (shown self.old).left (shown self.new).left (taken_by given)) }
        ensures closed { result ≡ Ok WsIn.Closed → HasNoMoreMessages (shown self.new).left }
        ensures err { OnErr result ((shown self.new).left ≡ (shown self.old).left) }
        ensures sent { (shown self.new).sent ≡ (shown self.old).sent }
        ensures later { (shown self.old).faults ≤ (shown self.new).faults }
        ensures failed { result ≡ Err LinkError.Failed → Rose (shown self.old).faults (shown self.new).faults };

    /// Sends a text. Takes memory for it.
    fn send(&mut self, text: &[u8]) -> Result<(), LinkError>
        ensures ok { OnOk result (SendsTexts (shown self.old).sent (shown self.new).sent (text.now ∷ [])) }
        ensures err { OnErr result ((shown self.new).sent ≡ (shown self.old).sent) }
        ensures left { (shown self.new).left ≡ (shown self.old).left }
        ensures later { (shown self.old).faults ≤ (shown self.new).faults }
        ensures failed { result ≡ Err LinkError.Failed → Rose (shown self.old).faults (shown self.new).faults };
}
