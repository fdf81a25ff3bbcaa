//! What follows of what is promised of the command `websocket`. Laws; they do nothing.
ghost use Rattle.ws_run.specs.Faultless.{FaultlessRunsHost};

/// A run in which nothing fails, and whose configuration is accepted, looks at all its handshakes, or runs out of memory.
pub fn faultless_runs_host()
    ensures { FaultlessRunsHost }
{}
