//! What follows of a connection that was served. Laws; they do nothing.
ghost use Rattle.conn_serve.specs.Complete.{FaultlessConnectionsAreAnswered, FaultlessConnectionsAreDetermined, ReadFaultsComeLast};
ghost use Rattle.conn_serve.specs.Histories.{ConnectionsStandInHistories};

/// Where the counts of faults of source and sink did not rise and the desk may make more calls, a connection ran out of memory, or all
/// its messages were answered, with nothing else written, and it ended as its bytes do.
pub fn faultless_connections_are_answered()
    ensures { FaultlessConnectionsAreAnswered }
{}

/// Reading fails only where the bytes that were taken have no end of their own: no message among them asks to close or is the last of so
/// many, and behind them stands no head that is refused.
pub fn read_faults_come_last()
    ensures { ReadFaultsComeLast }
{}

/// The messages and the end of a connection where nothing failed and memory sufficed are a function of the bytes that its source had, whatever
/// its site, its sink, its desk and its clock are.
pub fn faultless_connections_are_determined()
    ensures { FaultlessConnectionsAreDetermined }
{}

/// However a connection ended, the calls that were answered on it stand in the histories of the desk's accounts, each with its front, and
/// no other entry there is the desk's. It made at most 16 calls for each of the messages.
pub fn connections_stand_in_histories()
    ensures { ConnectionsStandInHistories }
{}
