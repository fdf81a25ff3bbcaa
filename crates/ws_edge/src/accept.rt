//! What hands out links of users.
ghost use Rattle.std.specs.Prelude.{◌≡◌, ◌⊎◌, ◌≤◌, ◌<◌, Err, IfOk, IfSome, IfNone, OnOk, OnErr, length, option_map};
ghost use Rattle.io_edge.specs.Outside.{CountsOne, Rose};
ghost use Rattle.ws_edge.specs.Accepting.{AcceptShown, HasSocketOut, HasNoMoreBack, Opens, handing_socket_out, taking_socket_back};

use crate::link::{LinkError, WsLink};
use session_doc::Site;
use spec_sockets::served::WsServed;

/// Hands out the links of a port, one after the other, and takes them back when they were served.
pub trait WsAccept {
    /// The links that it hands out.
    type Link: WsLink + Drop;

    /// What contracts see of it.
    ghost shown: { Self → AcceptShown };

    /// Opens a port. Takes memory for it.
    fn open(&mut self, port: u16) -> Result<(), LinkError>
        ensures ok { OnOk result (Opens (shown self.old) (shown self.new) port) }
        ensures in_vain { result ≡ Err LinkError.Failed → Opens (shown self.old) (shown self.new) port }
        ensures no_memory { result ≡ Err LinkError.NoMemory → Opens (shown self.old) (shown self.new) port ⊎ ((shown self.new).ports ≡ (shown self.old).ports) }
        ensures sockets { (shown self.new).sockets ≡ (shown self.old).sockets }
        ensures asked { (shown self.new).asked ≡ (shown self.old).asked }
        ensures later { (shown self.old).faults ≤ (shown self.new).faults }
        ensures failed { result ≡ Err LinkError.Failed → Rose (shown self.old).faults (shown self.new).faults };

    /// Looks at the next handshake, for which it may wait: the number of the user whose token it shows, and the link.
    ///
    /// `None` is a handshake that wasn't completed, that shows no user's token, or that doesn't offer the subprotocol `jmap` (RFC 8887 section 4.2). `Failed` is a
    /// fault of the port itself. Takes memory for the link.
    fn accept(&mut self, site: &Site) -> Result<Option<(u32, Self::Link)>, LinkError>
        ensures handed { IfOk result (λ found. IfSome found (λ pair. (shown self.new).sockets ≡ option_map (handing_socket_out pair.0 (Self.Link.shown pair.1)) (shown self.old).sockets)) }
        ensures user { IfOk result (λ found. IfSome found (λ pair. pair.0 < length site.now.users)) }
        ensures none { IfOk result (λ found. IfNone found ((shown self.new).sockets ≡ (shown self.old).sockets)) }
        ensures err { OnErr result ((shown self.new).sockets ≡ (shown self.old).sockets) }
        ensures asked { OnOk result (CountsOne (shown self.old).asked (shown self.new).asked) }
        ensures not_asked { OnErr result ((shown self.new).asked ≡ (shown self.old).asked) }
        ensures ports { (shown self.new).ports ≡ (shown self.old).ports }
        ensures later { (shown self.old).faults ≤ (shown self.new).faults }
        ensures failed { result ≡ Err LinkError.Failed → Rose (shown self.old).faults (shown self.new).faults };

    /// Takes a link back that was served so. It may wait, and takes no memory.
    fn ended(&mut self, link: Self::Link, served: WsServed)
        requires { HasSocketOut (shown self.old) }
        ensures sockets { (shown self.new).sockets ≡ option_map (taking_socket_back (Self.Link.shown link) served) (shown self.old).sockets }
        ensures ports { (shown self.new).ports ≡ (shown self.old).ports }
        ensures asked { (shown self.new).asked ≡ (shown self.old).asked }
        ensures faults { (shown self.new).faults ≡ (shown self.old).faults };

    // No more links came back than were handed out.
    ghost balanced: { (a : Self) → HasNoMoreBack (shown a) };
}

/// What hands out links, and may move to another thread with them.
pub trait ThreadAccept: WsAccept<Link: Send> + Send + Drop + 'static {}
