//! The laws of pages, each the contract of a function that does nothing.
ghost use Rattle.std.specs.Prelude.{◌≡◌, ◌≤◌, ◌<◌, ℕ, List, Option, Some, true, length, is_some, option_and_then, option_map, take, filter};
ghost use Rattle.spec_history.specs.History.{ids_at, is_kind, live_object, names, count_of_kind};
ghost use Rattle.spec_history.specs.Pages.{Mention, ids_of, is_live, is_within, last, mentions, page_end, size_of_page};
ghost use Rattle.spec_history.specs.PagesLead.{AreApart, held_after_all, last_state};
ghost use Rattle.spec_history.specs.declared.entry.Change.{Change};
ghost use Rattle.spec_history.specs.declared.entry.Kind.{Kind};
ghost use Rattle.spec_json.specs.declared.tree.Tree.{Tree};
ghost use Rattle.spec_sizes.specs.Sizes.{is_answered_from, of_kind};
ghost use Rattle.object_log.specs.Histories.{Follows};
ghost use Rattle.object_log.specs.Puts.{ids_put, is_known, latest, latest_at, said};
ghost use Rattle.object_log.specs.declared.put.Put.{Put};

/// Pages lead a client from one state to the next (RFC 8620 section 5.2).
///
/// No id stands in two lists of a page. A page from a state before the last gets on where at least one id is allowed. A client
/// that holds the live ids of a state, and takes pages one after the other, each from the state that the last named, holds the
/// live ids of the state that the last page names. Takes no memory.
pub fn pages_lead()
    ensures apart { (ms : List Mention) (k j : ℕ) → AreApart ms k j }
    ensures gets_on { (ms : List Mention) (k most : ℕ) → k < length ms → 0 < most → k < page_end ms k (Some most) }
    ensures leads { (ms : List Mention) (k : ℕ) (js : List ℕ) (id : ℕ) → held_after_all ms k js (is_live ms k) id ≡ is_live ms (last_state k js) id }
{}

/// A page ends at the greatest state at which it is within its limit. Takes no memory.
pub fn pages_are_longest()
    ensures end { (ms : List Mention) (k : ℕ) (most : Option ℕ) → k ≤ length ms → page_end ms k most ≤ length ms }
    ensures within { (ms : List Mention) (k : ℕ) (most : Option ℕ) → is_within most (size_of_page ms k (page_end ms k most)) ≡ true }
    ensures longest { (ms : List Mention) (k : ℕ) (most : Option ℕ) (j : ℕ) → k < j → j ≤ length ms → is_within most (size_of_page ms k j) ≡ true → j ≤ page_end ms k most }
{}

/// The object of a number is that of the last change that names it. What pages call live at the state of a kind are the objects of the
/// history; their ids are the different numbers of the kind, in the order in which changes first name them. Takes no memory.
pub fn states_show_objects()
    ensures objects { (cs : List Change) (kind : Kind) (id : ℕ) → live_object cs kind id ≡ option_and_then (λ c. c.object) (last (filter (names kind id) cs)) }
    ensures live { (cs : List Change) (kind : Kind) (id : ℕ) → is_live (mentions kind cs) (count_of_kind cs kind) id ≡ is_some (live_object cs kind id) }
    ensures ids { (cs : List Change) (kind : Kind) → ids_of (mentions kind cs) ≡ ids_at cs kind }
    ensures state { (cs : List Change) (kind : Kind) → length (mentions kind cs) ≡ count_of_kind cs kind }
{}

/// What pages call live at an earlier state of a kind are the objects after so many changes of the kind. Takes no memory.
pub fn earlier_states_show_objects()
    ensures { (cs : List Change) (kind : Kind) (k id : ℕ) → is_live (mentions kind cs) k id ≡ is_some (live_object (take k (filter (λ c. is_kind kind c.kind) cs)) kind id) }
{}

/// A log that was told the changes of a kind, with what is read of each object as one of the history, shows what the history says: its objects, those of each
/// state (RFC 8620 section 5.1), its ids and its mentions, and which states are answered from. Takes no memory.
pub fn logs_show_histories<T>()
    ensures objects { (read : T → Tree) (ps : List (Put T)) (kind : Kind) (cs : List Change) → Follows read ps kind cs → (id : ℕ) → option_map read (latest ps id) ≡ live_object cs kind id }
    ensures at_state { (read : T → Tree) (ps : List (Put T)) (kind : Kind) (cs : List Change) → Follows read ps kind cs → (k id : ℕ) → option_map read (latest_at ps k id) ≡ live_object (take k (of_kind kind cs)) kind id }
    ensures ids { (read : T → Tree) (ps : List (Put T)) (kind : Kind) (cs : List Change) → Follows read ps kind cs → ids_put ps ≡ ids_at cs kind }
    ensures mentions { (read : T → Tree) (ps : List (Put T)) (kind : Kind) (cs : List Change) → Follows read ps kind cs → said ps ≡ mentions kind cs }
    ensures known { (read : T → Tree) (ps : List (Put T)) (kind : Kind) (cs : List Change) → Follows read ps kind cs → (k : ℕ) → is_known ps k ≡ is_answered_from kind cs k }
{}
