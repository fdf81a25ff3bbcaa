//! What follows of what is promised of `listen`. Laws; they do nothing.
ghost use Rattle.jmapd_listen.specs.Faultless.{FaultlessListensServe};

/// A `listen` in which nothing fails, and whose words and configuration are accepted, serves all connections of all its workers, or runs out of memory.
pub fn faultless_listens_serve()
    ensures { FaultlessListensServe }
{}
