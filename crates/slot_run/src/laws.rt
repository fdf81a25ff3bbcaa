//! What follows of what is promised of a look for a slot. A law; it does nothing.
ghost use Rattle.slot_run.specs.Completes.{FaultlessLooksAnswer};

/// A look in which nothing fails is answered or refused, or runs out of memory: where words and configuration are accepted and the keeper
/// tells a list of each account from which it goes on.
pub fn faultless_looks_answer()
    ensures { FaultlessLooksAnswer }
{}
