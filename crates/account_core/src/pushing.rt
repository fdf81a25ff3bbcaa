//! Staged changes that become entries.
ghost use Rattle.std.specs.Prelude.{◌≡◌, ◌<◌, ◌≤◌, ◌+◌, ◌^◌, ◌++◌, List, drop, get_or, length, map, true};
ghost use Rattle.spec_snapshots.specs.Numbered.{are_numbered};
ghost use Rattle.account_core.specs.declared.reading.Reading.{Reading as AnyReading};
ghost use Rattle.account_store.specs.Store.{entries, event_puts, spare};
ghost use Rattle.cal_model.specs.Answer.{entries_from};
ghost use Rattle.cal_model.specs.Quota.{size_of_object};
ghost use Rattle.event_store.specs.ReadSeries.{AreRead};
ghost use Rattle.spec_bookings.specs.SeriesPut.{series_put};
ghost use Rattle.spec_history.specs.History.{changes_of};
ghost use Rattle.spec_site.specs.TimeZones.{ZoneText};

use crate::reading::Reading;
use account_store::Store;
use spec_history::entry::{Change, Entry};
use spec_history::stamp::Stamp;
use std::mem;

/// Puts the entries of these changes at the end, with parts from `first` on, each with what was read of it, which is moved out. They are counted in 64 bits, since the
/// last part may be the greatest.
pub(crate) fn push_all(
    store: &mut Store,
    stamp: &Stamp,
    first: u32,
    changes: Vec<Change>,
    readings: &mut Vec<Reading>,
)
    requires spare { length changes.items ≤ spare store.old }
    requires parts { first + length changes.items ≤ 2 ^ 32 }
    requires few { length (entries store.old) + length changes.items ≤ 2 ^ 40 }
    requires numbered { are_numbered (changes_of (entries store.old)) changes.items ≡ true }
    requires sizes { map (λ r. r.size) readings.old.items ≡ map (λ c. size_of_object c.object) changes.items }
    ensures entries { entries store.new ≡ entries store.old ++ entries_from stamp.now first changes.items }
    ensures series { (zones : List ZoneText) → map (λ r. r.series) readings.old.items ≡ map (series_put zones) changes.items
        → AreRead zones (event_puts store.old) → AreRead zones (event_puts store.new) }
{
    let mut part = u64::from(first);
    let mut place = 0;
    for change in changes {
        let Reading { size, series } = take(readings, place);
        let entry = Entry {
            author: stamp.author,
            turn: stamp.turn,
            part: part as u32,
            moment: stamp.moment,
            change,
        };
        store.push_reserved(entry, series, size);
        part += 1;
        place += 1;
    }
}

// Moves out what was read of the change at a place. What stands behind it stays. Takes no memory.
fn take(readings: &mut Vec<Reading>, place: usize) -> Reading
    requires { place < length readings.old.items }
    ensures taken { (r : AnyReading) → result ≡ get_or readings.old.items place r }
    ensures later { drop (place + 1) readings.new.items ≡ drop (place + 1) readings.old.items }
    ensures len { length readings.new.items ≡ length readings.old.items }
{
    let nothing = Reading {
        size: 0,
        series: None,
    };
    mem::replace(&mut readings[place], nothing)
}
