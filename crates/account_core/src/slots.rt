//! Slots of resources.
ghost use Rattle.std.specs.Prelude.{◌≡◌, [], IfNone, IfOk, IfSome, None, Some, ℕ};
ghost use Rattle.account_core.specs.Ledger.{base, history, ledger_entries, staged};
ghost use Rattle.cal_model.specs.Answer.{slot_answer};
ghost use Rattle.slot_request.specs.Shown.{request_shown};
ghost use Rattle.slot_request.specs.Told.{AreTold};
ghost use Rattle.spec_bookings.specs.BookedResources.{bookings_of};
ghost use Rattle.spec_slots.specs.AccountSlots.{resource_named, slot_in_account};

use crate::ledger::Ledger;
use crate::reply::{refusal, reply};
use resource_book::Room;
use slot_request::{SlotRequest, find_in_room, read_request, slot_tree};
use spec_calls::call::{MethodError, Reply, SlotArguments};
use spec_history::entry::Kind;
use spec_json::lists::Pairs;
use spec_slots::slot::FoundSlot;
use std::alloc::AllocError;
use time_text::read_object_id;

/// Answers which slot of a resource is the first in which a series could be booked (`Resource/findSlot`).
pub fn slot(ledger: &Ledger, arguments: &SlotArguments) -> Result<Reply, AllocError>
    requires { staged ledger.now ≡ [] }
    ensures { IfOk result (λ r. r ≡ slot_answer (base ledger.now) (ledger_entries ledger.now) arguments.now) }
{
    let alloc = ledger.alloc;
    let Some(asked) = read_request(alloc, arguments)? else {
        return Ok(refusal(alloc, &ledger.store, MethodError::InvalidArguments));
    };
    match find_slot(ledger, &asked)? {
        Some(found) => {
            let arguments = slot_tree(alloc, &ledger.id, &found)?;
            Ok(reply(&ledger.store, arguments, Pairs::new(Vec::new(alloc))))
        }
        None => Ok(refusal(alloc, &ledger.store, MethodError::NotFound)),
    }
}

/// The first slot for what is asked, with each earlier start and what stands against it, or `None` where there is no live resource
/// calendar of the id. Takes memory for it.
pub fn find_slot(ledger: &Ledger, asked: &SlotRequest) -> Result<Option<FoundSlot>, AllocError>
    requires { staged ledger.now ≡ [] }
    ensures found { IfOk result (λ found. found ≡ slot_in_account (base ledger.now).zones (history ledger.now) (request_shown asked.now)) }
    ensures told { IfOk result (λ found. IfSome found AreTold) }
{
    match room_named(ledger, asked.calendar.as_str()) {
        Some(room) => Ok(Some(find_in_room(ledger.alloc, room, asked)?)),
        None => Ok(None),
    }
}

// The room of the resource calendar of an id.
fn room_named<'a>(ledger: &'a Ledger, id: &str) -> Option<&'a Room>
    requires { staged ledger.now ≡ [] }
    ensures none { IfNone result (resource_named (history ledger.now) id.now ≡ None) }
    ensures some { IfSome result (λ room. (n : ℕ) × (resource_named (history ledger.now) id.now ≡ Some n) × (room.now.bookings ≡ bookings_of (base ledger.now).zones (history ledger.now) n)) }
{
    match read_object_id(Kind::Calendar, id.as_bytes()) {
        Some(number) => ledger.room_of(number),
        None => None,
    }
}
