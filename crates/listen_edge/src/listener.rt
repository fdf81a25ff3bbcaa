//! Listeners: where connections come from.
ghost use Rattle.std.specs.Prelude.{◌≡◌, IfOk, OnErr, option_map};
ghost use Rattle.io_edge.specs.Outside.{HasCause};
ghost use Rattle.listen_edge.specs.Listening.{HasOneOut, IsBalanced, ListenerShown, handing_out, taking_back};

use io_edge::fault::Failed;
use io_edge::sink::Sink;
use io_edge::source::Source;
use request_log::request::RequestLog;
use spec_connection::served::Served;

/// Hands out connections, one after the other, and takes them back when they were served. It is told of their requests meanwhile.
pub trait Listener: RequestLog + Drop + 'static {
    /// What is read of a connection.
    type In: Source + Drop;

    /// What is written of a connection.
    type Out: Sink + Drop;

    /// What contracts see of the listener.
    ghost shown: { Self → ListenerShown };

    /// Hands out the next connection, for which it may wait.
    fn accept(&mut self) -> Result<(Self::In, Self::Out), Failed>
        ensures ok { IfOk result (λ c. (shown self.new).connections ≡ option_map (handing_out (Self.In.shown c.0) (Self.Out.shown c.1)) (shown self.old).connections) }
        ensures err { OnErr result ((shown self.new).connections ≡ (shown self.old).connections) }
        ensures cause { HasCause (shown self.old).faults (shown self.new).faults result };

    /// Takes a connection back that was served so. It may wait, and takes no memory.
    fn ended(&mut self, input: Self::In, output: Self::Out, served: Served)
        requires { HasOneOut (shown self.old) }
        ensures connections { (shown self.new).connections ≡ option_map (taking_back (Self.In.shown input) (Self.Out.shown output) served) (shown self.old).connections }
        ensures faults { (shown self.new).faults ≡ (shown self.old).faults };

    // No more connections came back than were handed out.
    ghost balanced: { (l : Self) → IsBalanced (shown l) };
}

/// A listener that may move to another thread, with the connections that it hands out.
pub trait ThreadListener: Listener<In: Send, Out: Send> + Send {}
