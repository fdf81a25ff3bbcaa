//! Sinks: where bytes go.

ghost use Rattle.std.specs.Prelude.{◌≡◌, ◌<◌, length, take, IfOk, OnErr, OnOk};
ghost use Rattle.std.specs.Io.{WritesAtMost};
ghost use Rattle.io_edge.specs.Outside.{Grows, GrowsByPrefix, HasCause, SinkShown};

use crate::fault::Failed;

/// Where bytes go.
pub trait Sink {
    /// What contracts see of the sink.
    ghost shown: { Self → SinkShown };

    /// Takes some bytes from the beginning of a piece, and says how many: none only of an empty piece.
    ///
    /// Takes no memory of the caller.
    fn give(&mut self, bytes: &[u8]) -> Result<usize, Failed>
        ensures bound { WritesAtMost result bytes.now }
        ensures some { IfOk result (λ n. 0 < length bytes.now → 0 < n) }
        ensures ok { IfOk result (λ n. Grows (shown self.old).holds (shown self.new).holds (take n bytes.now)) }
        ensures err { OnErr result ((shown self.new).holds ≡ (shown self.old).holds) }
        ensures cause { HasCause (shown self.old).faults (shown self.new).faults result };
}

/// Gives a whole piece. After a fault the sink holds a part of it more, from its beginning and less than the whole.
///
/// Takes no memory.
#[tactic(auto, using(crate::proofs::Pieces::given_more))]
pub fn put_all<K: Sink>(sink: &mut K, bytes: &[u8]) -> Result<(), Failed>
    ensures ok { OnOk result (Grows (K.shown sink.old).holds (K.shown sink.new).holds bytes.now) }
    ensures err { OnErr result (GrowsByPrefix (K.shown sink.old).holds (K.shown sink.new).holds bytes.now) }
    ensures cause { HasCause (K.shown sink.old).faults (K.shown sink.new).faults result }
{
    let mut given = 0;
    while given < bytes.len() {
        given += sink.give(&bytes[given..])?;
    }
    Ok(())
}
