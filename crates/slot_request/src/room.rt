//! The slot in a room.
ghost use Rattle.std.specs.Prelude.{◌≡◌, IfOk};
ghost use Rattle.slot_request.specs.Told.{AreTold};
ghost use Rattle.spec_json.specs.TreeData.{data_of};
ghost use Rattle.spec_slots.specs.Slots.{wished_slot};

use crate::request::SlotRequest;
use resource_book::Room;
use rule_read::RulesError;
use slot_find::find;
use spec_slots::slot::FoundSlot;
use std::alloc::{AllocError, Global};

/// The first quarter of an hour at which nothing in a room stands against what is asked for, over all days without end, and each
/// earlier quarter with what does. Takes memory for these, and for the rules until it returns.
pub fn find_in_room(
    alloc: Global,
    room: &Room,
    asked: &SlotRequest,
) -> Result<FoundSlot, AllocError>
    ensures found { IfOk result (λ found. found ≡ wished_slot room.now.bookings asked.now.wish.length (data_of asked.now.wish.rules) asked.now.from asked.now.to) }
    ensures told { IfOk result AreTold }
{
    match find(alloc, room, &asked.wish, asked.from, asked.to) {
        Ok(found) => Ok(found),
        // The rules were read when the arguments were.
        Err(RulesError::BadRules) => unreachable!(),
        Err(RulesError::NoMemory) => Err(AllocError),
    }
}
