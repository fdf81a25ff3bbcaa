//! Sets (RFC 8620 section 5.3).
ghost use Rattle.std.specs.Prelude.{◌≡◌, ◌≤◌, ◌^◌, [], None, IfErr, IfOk, OnErr, OnOk, length};
ghost use Rattle.account_core.specs.Kept.{SetCame, StagedCame};
ghost use Rattle.account_core.specs.Ledger.{base, ledger_entries, history, staged};
ghost use Rattle.account_store.specs.Store.{spare};
ghost use Rattle.cal_model.specs.Answer.{answered, unkept_answer};
ghost use Rattle.cal_model.specs.SetReply.{set_arguments};
ghost use Rattle.cal_model.specs.Sets.{new_ids, objects_of, set_changes, set_refusal};
ghost use Rattle.set_methods.specs.Reports.{Reports};
ghost use Rattle.set_methods.specs.Grounds.{ground_at};

use crate::keeping::EntryKeeper;
use crate::ledger::Ledger;
use crate::reply::{refusal, reply};
use cal_model::view::AccountView;
use journal_keeper::keeper::KeepError;
use set_methods::plan::plan;
use set_methods::planned::PlanError;
use spec_calls::call::{MethodError, Reply, SetArguments};
use spec_history::entry::Kind;
use spec_history::stamp::Stamp;
use spec_json::lists::Pairs;
use spec_time::moment::Moment;
use std::alloc::AllocError;

/// Answers a set of objects of a kind, keeps its entries, and adds them once they are kept. Where they could not be kept the reply tells so, and nothing is added.
///
/// After running out of memory the entries are as before.
pub fn set<K: EntryKeeper>(
    ledger: &mut Ledger,
    keeper: &mut K,
    stamp: &Stamp,
    arguments: &SetArguments,
    created: &Pairs,
) -> Result<Reply, AllocError>
    requires { staged ledger.old ≡ [] }
    ensures came { IfOk result (λ r. SetCame K.unkept created.now (base ledger.old) (ledger_entries ledger.old) arguments.now stamp.now r (ledger_entries ledger.new)) }
    ensures kept { K.has keeper.old (base ledger.old) (ledger_entries ledger.old) → K.has keeper.new (base ledger.old) (ledger_entries ledger.new) }
    ensures unchanged { OnErr result (ledger_entries ledger.new ≡ ledger_entries ledger.old) }
    ensures staged { staged ledger.new ≡ [] }
    ensures base { base ledger.new ≡ base ledger.old }
{
    look_up(ledger, arguments)?;
    carry_out(ledger, keeper, stamp, arguments, created)
}

// Where calendars are to be destroyed, looks up at once which of them events are in.
fn look_up(ledger: &mut Ledger, arguments: &SetArguments) -> Result<(), AllocError>
    ensures entries { ledger_entries ledger.new ≡ ledger_entries ledger.old }
    ensures staged { staged ledger.new ≡ staged ledger.old }
    ensures base { base ledger.new ≡ base ledger.old }
{
    match (arguments.kind, &arguments.destroy) {
        (Kind::Calendar, Some(_)) => ledger.look_up_calendars(),
        _ => Ok(()),
    }
}

// The changes are planned and memory is reserved before they are kept, and nothing can fail behind that.
fn carry_out<K: EntryKeeper>(
    ledger: &mut Ledger,
    keeper: &mut K,
    stamp: &Stamp,
    arguments: &SetArguments,
    created: &Pairs,
) -> Result<Reply, AllocError>
    requires { staged ledger.old ≡ [] }
    ensures came { IfOk result (λ r. SetCame K.unkept created.now (base ledger.old) (ledger_entries ledger.old) arguments.now stamp.now r (ledger_entries ledger.new)) }
    ensures kept { K.has keeper.old (base ledger.old) (ledger_entries ledger.old) → K.has keeper.new (base ledger.old) (ledger_entries ledger.new) }
    ensures unchanged { OnErr result (ledger_entries ledger.new ≡ ledger_entries ledger.old) }
    ensures staged { staged ledger.new ≡ [] }
    ensures base { base ledger.new ≡ base ledger.old }
{
    match prepare(ledger, stamp.moment, arguments, created) {
        Ok(reply) => keep_and_commit(ledger, keeper, stamp, reply),
        Err(PlanError::Method(error)) => Ok(refusal(ledger.alloc, &ledger.store, error)),
        Err(PlanError::NoMemory) => Err(AllocError),
    }
}

// Keeps what is staged and then makes it entries; where it could not be kept, nothing stays staged, and the reply tells so.
fn keep_and_commit<K: EntryKeeper>(
    ledger: &mut Ledger,
    keeper: &mut K,
    stamp: &Stamp,
    reply: Reply,
) -> Result<Reply, AllocError>
    requires spare { length (staged ledger.old) ≤ spare ledger.old.store }
    requires parts { length (staged ledger.old) ≤ 2 ^ 32 }
    ensures came { IfOk result (λ r. StagedCame K.unkept (ledger_entries ledger.old) (staged ledger.old) stamp.now reply r (ledger_entries ledger.new)) }
    ensures kept { K.has keeper.old (base ledger.old) (ledger_entries ledger.old) → K.has keeper.new (base ledger.old) (ledger_entries ledger.new) }
    ensures unchanged { OnErr result (ledger_entries ledger.new ≡ ledger_entries ledger.old) }
    ensures staged { staged ledger.new ≡ [] }
    ensures base { base ledger.new ≡ base ledger.old }
{
    ledger.goes_on();
    match keeper.keep(stamp, &ledger.staged) {
        Ok(()) => {
            ledger.commit(stamp, 0);
            Ok(reply)
        }
        Err(error) => {
            ledger.forget();
            not_kept(ledger, error)
        }
    }
}

// What is told of changes that weren't kept.
fn not_kept(ledger: &Ledger, error: KeepError) -> Result<Reply, AllocError>
    ensures { IfOk result (λ r. (error ≡ KeepError.Failed) × (r ≡ unkept_answer (ledger_entries ledger.now))) }
{
    match error {
        KeepError::Failed => Ok(refusal(ledger.alloc, &ledger.store, MethodError::ServerFail)),
        KeepError::NoMemory => Err(AllocError),
    }
}

// Stages the changes of a set and takes memory for their entries.
fn prepare(
    ledger: &mut Ledger,
    moment: Moment,
    arguments: &SetArguments,
    created: &Pairs,
) -> Result<Reply, PlanError>
    requires { staged ledger.old ≡ [] }
    ensures carried_out { OnOk result (set_refusal (base ledger.old).generation arguments.now.kind (history ledger.old) (objects_of arguments.now) arguments.now.if_in_state arguments.now.remove_events ≡ None) }
    ensures reply { IfOk result (λ r. r ≡ answered (ledger_entries ledger.old)
        (set_arguments (ground_at (base ledger.old) moment) arguments.now.kind created.now (history ledger.old) (objects_of arguments.now))
        (new_ids (ground_at (base ledger.old) moment) arguments.now.kind created.now (history ledger.old) (objects_of arguments.now))) }
    ensures staged { OnOk result (staged ledger.new
        ≡ set_changes (ground_at (base ledger.old) moment) arguments.now.kind created.now (history ledger.old) (objects_of arguments.now)) }
    ensures spare { OnOk result (length (staged ledger.new) ≤ spare ledger.new.store) }
    ensures refused { IfErr result (λ e. Reports e (set_refusal (base ledger.old).generation arguments.now.kind (history ledger.old) (objects_of arguments.now) arguments.now.if_in_state arguments.now.remove_events)) }
    ensures forgotten { OnErr result (staged ledger.new ≡ []) }
    ensures entries { ledger_entries ledger.new ≡ ledger_entries ledger.old }
    ensures base { base ledger.new ≡ base ledger.old }
{
    let zones = ledger.zones.clone()?;
    let account = ledger.id.copy()?;
    let plan = plan(
        ledger.alloc,
        ledger,
        &zones,
        &account,
        moment,
        arguments,
        created,
    )?;
    ledger.reserve()?;
    Ok(reply(&ledger.store, plan.arguments, plan.created))
}
