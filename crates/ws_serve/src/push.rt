//! What a client is told of changes.
ghost use Rattle.std.specs.Prelude.{◌≡◌, ◌<◌, ◌+◌, [], OnOk, length, nat_lt};
ghost use Rattle.spec_sockets.specs.Turns.{watched_by};
ghost use Rattle.spec_sockets.specs.declared.served.TheConstants.{MAX_LOOK_CALLS};

use spec_core::user::User;
use spec_sockets::served::MAX_LOOK_CALLS;
use spec_sockets::switch::Switch;
use state_watch::watch::Watch;
use std::alloc::{AllocError, Global};

/// The states that are watched on a socket, and how they are looked at.
#[derive(Drop)]
pub(crate) struct Push {
    /// The states.
    pub(crate) watch: Watch,
    /// The number of calls that were made to look at states.
    pub(crate) calls: u64,
    /// Whether the next turn is a look.
    pub(crate) is_due: bool,
}

impl Push {
    /// That of a socket on which nothing is watched yet. Takes no memory.
    pub(crate) fn off(alloc: Global) -> Push
        ensures { (result.watch ≡ []) × (result.calls ≡ 0) }
    {
        Push {
            watch: Watch::of_nothing(alloc),
            calls: 0,
            is_due: false,
        }
    }

    /// Whether a look at all that is watched would be more calls than a socket may make for looks. Takes no memory.
    pub(crate) fn is_spent(&self) -> bool
        ensures { result ≡ nat_lt MAX_LOOK_CALLS (self.now.calls + length self.now.watch) }
    {
        self.calls.saturating_add(self.watch.len() as u64) > MAX_LOOK_CALLS
    }

    /// Has the states watched that a switch asks for, all of them anew. Takes memory for them.
    pub(crate) fn switch(
        &mut self,
        alloc: Global,
        user: &User,
        switch: Switch,
    ) -> Result<(), AllocError>
        ensures watch { OnOk result (self.new.watch ≡ watched_by user.now switch) }
        ensures calls { self.new.calls ≡ self.old.calls }
    {
        self.watch = match switch {
            Switch::Enable(types) => Watch::of(alloc, user, types)?,
            Switch::Disable => Watch::of_nothing(alloc),
        };
        self.is_due = self.watch.len() > 0;
        Ok(())
    }
}
