//! How far it is to the next day of a month or a year that an item names.
ghost use Rattle.std.specs.Prelude.{◌≡◌, ◌+◌, ◌-◌, ◌<◌, ◌≤◌, ℕ, pos, neg_ℤ, false};
ghost use Rattle.std.specs.List.{list_any};
ghost use Rattle.std.specs.Int.{IsInRange};
ghost use Rattle.spec_series.specs.Items.{is_item};
ghost use Rattle.spec_series.specs.Places.{is_place};

use crate::occurs::Around;
use spec_series::by_part::Small;

// How many days after a day, with so many before and after it, an item names the next from the front, or one day more than are left.
fn days_to_front(items: &Small, before: u32, after: u32) -> u32
    requires before { before ≤ 366 }
    requires after { after ≤ 366 }
    ensures bounds { IsInRange 1 (after + 1) result }
    ensures none { (j : ℕ) → 1 ≤ j → j < result → is_item items.now (pos (before + j + 1)) ≡ false }
{
    let here = before as i32 + 1;
    match items.at_least(here + 1) {
        Some(place) if place - here <= after as i32 => (place - here) as u32,
        _ => after + 1,
    }
}

// The same from the end.
fn days_to_back(items: &Small, after: u32) -> u32
    requires after { after ≤ 366 }
    ensures bounds { IsInRange 1 (after + 1) result }
    ensures none { (j : ℕ) → 1 ≤ j → j < result → is_item items.now (neg_ℤ (pos (after + 1 - j))) ≡ false }
{
    match items.at_least(-(after as i32)) {
        Some(place) if place < 0 => (after as i32 + 1 + place) as u32,
        _ => after + 1,
    }
}

/// How many days after a day an item names the next of the period, from the front or from the end, or the next period begins.
pub(crate) fn days_to_item(items: &Small, around: Around) -> u32
    requires before { around.before ≤ 366 }
    requires after { around.after ≤ 366 }
    ensures bounds { IsInRange 1 (around.after + 1) result }
    ensures none { (j : ℕ) → 1 ≤ j → j < result → list_any (is_place (around.before + j + 1) (around.after + 1 - j)) items.now ≡ false }
{
    let front = days_to_front(items, around.before, around.after);
    let back = days_to_back(items, around.after);
    if front < back { front } else { back }
}
