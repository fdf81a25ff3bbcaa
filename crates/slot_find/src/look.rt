//! A look for a slot.
ghost use Rattle.std.specs.Prelude.{◌≡◌, ◌≤ℤ◌, ℤ, IfErr, IfOk, None, OnOk, is_some, true};
ghost use Rattle.rule_read.specs.declared.error.RulesError.TheVariants.{BadRules};
ghost use Rattle.spec_json.specs.TreeData.{data_of};
ghost use Rattle.spec_series.specs.RuleObjects.{rules_in};
ghost use Rattle.spec_slots.specs.Slots.{IsSlot, wished_slot};
ghost use Rattle.spec_slots.specs.Wishes.{wish_clash};
ghost use Rattle.spec_time.specs.Walls.{is_in_years};

use crate::day::try_day;
use crate::quarters::{end_of_day, is_before};
use resource_book::Room;
use rule_read::RulesError;
use spec_slots::slot::{FoundSlot, TriedList};
use spec_slots::wish::Wish;
use spec_time::wall::Wall;
use std::alloc::Global;

/// The first quarter of an hour, from a wall second on up to but without another, at which nothing in a room stands against a wish, over all
/// days without end; and each earlier quarter, in order, with the first second that would be covered twice and the booking that covers it.
///
/// Both wall seconds lie in the years 0 to 9999, and the second isn't before the first. `BadRules` exactly where the rules of the wish can't
/// be read, whatever the start. Takes memory for the starts that are told, and for the rules.
pub fn find(
    alloc: Global,
    room: &Room,
    wish: &Wish,
    from: Wall,
    to: Wall,
) -> Result<FoundSlot, RulesError>
    requires from { is_in_years from ≡ true }
    requires to { is_in_years to ≡ true }
    requires order { from ≤ℤ to }
    ensures found { IfOk result (λ found. found ≡ wished_slot room.now.bookings wish.now.length (data_of wish.now.rules) from to) }
    ensures least { IfOk result (IsSlot (wish_clash room.now.bookings wish.now.length (data_of wish.now.rules)) from to) }
    ensures read { OnOk result ((x : ℤ) → is_some (rules_in x (data_of wish.now.rules)) ≡ true) }
    ensures bad { IfErr result (λ error. error ≡ BadRules → (x : ℤ) → rules_in x (data_of wish.now.rules) ≡ None) }
{
    let mut tried = Vec::new(alloc);
    let mut at = from;
    'days: loop {
        let end = end_of_day(at, to);
        match try_day(alloc, room, wish, at, end, &mut tried)? {
            Some(start) => {
                return Ok(FoundSlot {
                    start: Some(start),
                    tried: TriedList::new(tried),
                });
            }
            None => {}
        }
        if is_before(end, to) {
            at = end;
        } else {
            return Ok(FoundSlot {
                start: None,
                tried: TriedList::new(tried),
            });
        }
    }
}
