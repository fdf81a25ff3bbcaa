//! The law of what changed of a query's result, the contract of a function that does nothing.
ghost use Rattle.std.specs.Prelude.{◌≡◌, ℕ, List};
ghost use Rattle.spec_calls.specs.declared.call.Criteria.{Criteria};
ghost use Rattle.spec_history.specs.declared.entry.Change.{Change};
ghost use Rattle.spec_queries.specs.Changed.{delta_since};
ghost use Rattle.spec_queries.specs.Criteria.{order_of, sight_of};
ghost use Rattle.spec_queries.specs.Matching.{result_at, result_of};
ghost use Rattle.spec_queries.specs.QueryChanges.{spliced};
ghost use Rattle.spec_site.specs.TimeZones.{ZoneText};

/// Who holds the ids that a query found at a state, and applies what `query_changes` tells since, holds those that it finds now
/// (RFC 8620 section 5.6).
pub fn query_changes_lead()
    ensures { (zones : List ZoneText) (c : Criteria) (cs : List Change) (k : ℕ)
        → spliced (result_at (sight_of zones c) (order_of c) cs k) (delta_since (sight_of zones c) (order_of c) cs k) ≡ result_of (sight_of zones c) (order_of c) cs }
{}
