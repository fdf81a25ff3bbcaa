//! The state of events.
ghost use Rattle.std.specs.Prelude.{◌≡◌};
ghost use Rattle.account_store.specs.Store.{entries};
ghost use Rattle.spec_history.specs.History.{changes_of};
ghost use Rattle.spec_history.specs.States.{state_of};
ghost use Rattle.spec_history.specs.declared.entry.Kind.TheVariants.{Event};

use event_store::StoredEvents;
use spec_history::entry::Kind;
use spec_history::state::State;

/// The state of the events of an account, which is that of each query of them (RFC 8620 sections 5.1 and 5.5). Takes no memory.
pub(crate) fn event_state(events: &StoredEvents<'_>) -> State
    ensures { result ≡ state_of events.now.generation Event (changes_of (entries events.now.store.now)) }
{
    State {
        generation: events.generation,
        number: events.store.count(Kind::Event),
    }
}
