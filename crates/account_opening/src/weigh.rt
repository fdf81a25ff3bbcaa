//! How much live objects take.
ghost use Rattle.std.specs.Prelude.{◌≡◌, ◌⊎◌, ◌+◌, ◌<◌, ◌≤◌, IfErr, IfNone, IfOk, IfSome, List, length, sum_by};
ghost use Rattle.account_opening.specs.Opening.{NamesUnsound};
ghost use Rattle.account_opening.specs.declared.open.OpeningError.TheVariants.{BadObject as bad_object};
ghost use Rattle.account_store.specs.Store.{entries};
ghost use Rattle.cal_model.specs.Quota.{live_objects, live_size};
ghost use Rattle.cal_model.specs.declared.limits.TheConstants.{MAX_OBJECT_BYTES, MAX_OBJECTS};
ghost use Rattle.spec_history.specs.History.{changes_of, live_at};
ghost use Rattle.spec_json.specs.Json.{text_of};
ghost use Rattle.spec_json.specs.TreeData.{data_of};
ghost use Rattle.spec_site.specs.TimeZones.{ZoneText};

use crate::open::OpeningError;
use account_store::Store;
use cal_model::limits::{MAX_OBJECT_BYTES, MAX_OBJECTS};
use json_edge::length::text_length;
use spec_history::entry::Kind;
use spec_json::tree::Tree;
use std::alloc::Global;

/// How much live objects take.
#[derive(Clone, Copy, Drop)]
pub(crate) struct LiveLoad {
    pub objects: usize,
    pub bytes: usize,
    ghost few: { objects ≤ MAX_OBJECTS },
    ghost small: { bytes ≤ MAX_OBJECT_BYTES },
}

/// How much the live objects of a store take, where it is no more than an account may have.
pub(crate) fn weigh(alloc: Global, store: &Store) -> Result<LiveLoad, OpeningError>
    ensures objects { IfOk result (λ l. l.objects ≡ length (live_objects (changes_of (entries store.now)))) }
    ensures bytes { IfOk result (λ l. l.bytes ≡ live_size (changes_of (entries store.now))) }
    ensures named { (zones : List ZoneText) → IfErr result (NamesUnsound zones (changes_of (entries store.now))) }
{
    let none = LiveLoad {
        objects: 0,
        bytes: 0,
    };
    let calendars = with_kind(alloc, store, none, Kind::Calendar)?;
    with_kind(alloc, store, calendars, Kind::Event)
}

// The load with the live objects of a kind more.
fn with_kind(
    alloc: Global,
    store: &Store,
    load: LiveLoad,
    kind: Kind,
) -> Result<LiveLoad, OpeningError>
    ensures objects { IfOk result (λ l. l.objects ≡ load.objects + length (live_at (changes_of (entries store.now)) kind)) }
    ensures bytes { IfOk result (λ l. l.bytes ≡ load.bytes + sum_by (λ t. length (text_of (data_of t))) (live_at (changes_of (entries store.now)) kind)) }
    ensures refused { IfErr result (λ e. (k : _) (n : _) → e ≡ bad_object k n
        → load.objects + length (live_at (changes_of (entries store.now)) kind) ≤ MAX_OBJECTS
        → load.bytes + sum_by (λ t. length (text_of (data_of t))) (live_at (changes_of (entries store.now)) kind) ≤ MAX_OBJECT_BYTES → ⊥) }
{
    let mut load = load;
    let ids = store.live_ids(alloc, kind)?;
    for id in &ids {
        let Some(object) = store.object(kind, *id) else {
            unreachable!()
        };
        let Some(more) = with_object(load, object) else {
            return Err(OpeningError::BadObject { kind, id: *id });
        };
        load = more;
    }
    Ok(load)
}

// The load with one object more, where it is within the quota.
fn with_object(load: LiveLoad, object: &Tree) -> Option<LiveLoad>
    ensures objects { IfSome result (λ l. l.objects ≡ load.objects + 1) }
    ensures bytes { IfSome result (λ l. l.bytes ≡ load.bytes + length (text_of (data_of object.now))) }
    ensures none { IfNone result ((MAX_OBJECTS < load.objects + 1) ⊎ (MAX_OBJECT_BYTES < load.bytes + length (text_of (data_of object.now)))) }
{
    let bytes = text_length(object);
    if load.objects >= MAX_OBJECTS || bytes > (MAX_OBJECT_BYTES - load.bytes) as u64 {
        return None;
    }
    Some(LiveLoad {
        objects: load.objects + 1,
        bytes: load.bytes + bytes as usize,
    })
}
