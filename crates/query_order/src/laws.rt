//! Laws of results and of their changes.
ghost use Rattle.std.specs.Prelude.{Option, ℕ, length, IsPermutation};
ghost use Rattle.std.specs.List.{range_with_len};
ghost use Rattle.spec_json.specs.declared.tree.Tree.{Tree as AnyTree};
ghost use Rattle.spec_queries.specs.declared.item.Item.{Item as AnyItem};
ghost use Rattle.spec_queries.specs.Matching.{result_at, result_of, touched_since};
ghost use Rattle.spec_queries.specs.QueryChangesLead.{Lead, StandAlike};
ghost use Rattle.spec_queries.specs.Results.{places};

use crate::order::Order;
use spec_history::entry::Change;
use spec_queries::item::Item;

/// Each item has one place in a result.
pub fn each_item_has_a_place(items: &[Item], order: &Order)
    ensures { IsPermutation (range_with_len 0 (length items.now)) (places order.now items.now) }
{}

/// The changes between two results lead from the one to the other, where what wasn't touched stands alike in both.
pub fn changes_lead(old: &[u64], new: &[u64], touched: &[u64])
    ensures { StandAlike old.now new.now touched.now → Lead old.now new.now touched.now }
{}

/// What wasn't touched since a state of a history stands alike in the results of one filter, order and time zone at that state and at the
/// end, whatever the filter says of an event's object.
pub fn untouched_events_stand_alike(order: &Order, changes: &[Change])
    ensures { (see : AnyTree → Option AnyItem) (k : ℕ) → StandAlike (result_at see order.now changes.now k) (result_of see order.now changes.now) (touched_since changes.now k) }
{}

/// So the changes between these two results lead from the one to the other.
pub fn results_lead(order: &Order, changes: &[Change])
    ensures { (see : AnyTree → Option AnyItem) (k : ℕ) → Lead (result_at see order.now changes.now k) (result_of see order.now changes.now) (touched_since changes.now k) }
{}
