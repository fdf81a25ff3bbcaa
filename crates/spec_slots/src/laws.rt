//! Laws of slots, the contracts of functions that do nothing.
ghost use Rattle.std.specs.Prelude.{◌≡◌, ◌≤ℤ◌, ℤ, Option, is_some};
ghost use Rattle.spec_bookings.specs.declared.clash.Clash.{Clash};
ghost use Rattle.spec_json.specs.Data.{Data};
ghost use Rattle.spec_series.specs.RuleObjects.{rules_in};
ghost use Rattle.spec_slots.specs.Quarters.{quarters};
ghost use Rattle.spec_slots.specs.Slots.{IsSlot, slot_among};

/// What is found is the first quarter against which nothing stands, and each earlier one is told with what stands against it.
pub fn slots_are_least()
    ensures { (clash : ℤ → Option Clash) (from to : ℤ) → from ≤ℤ to → IsSlot clash from to (slot_among clash (quarters from to)) }
{}

/// Rules that can be read for one start can be read for each.
pub fn rules_are_read_for_each_start()
    ensures { (x y : ℤ) (rules : Data) → is_some (rules_in x rules) ≡ is_some (rules_in y rules) }
{}
