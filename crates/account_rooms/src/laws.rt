//! The laws of rooms, the contracts of functions that do nothing.
ghost use Rattle.std.specs.Prelude.{◌≡◌, ◌∷◌, ◌++◌, [], List, None, Some, false, map, true, ℕ};
ghost use Rattle.account_rooms.specs.PutAgain.{ArePutAgain};
ghost use Rattle.account_rooms.specs.RoomChanges.{MayChange, rooms_after, rooms_by};
ghost use Rattle.account_rooms.specs.Covered.{AreCoveredOnce};
ghost use Rattle.account_rooms.specs.Rooms.{AreFree, AreRooms, BookedRoom, bookings_in, has_room, rooms_at};
ghost use Rattle.cal_model.specs.Fits.{IsEventFit, IsFit};
ghost use Rattle.spec_history.specs.History.{ids_at, next_number};
ghost use Rattle.spec_history.specs.Pages.{is_in};
ghost use Rattle.spec_history.specs.declared.entry.Change.{Change};
ghost use Rattle.spec_history.specs.declared.entry.Kind.TheVariants.{Calendar, Event};
ghost use Rattle.spec_json.specs.TreeData.{data_of};
ghost use Rattle.spec_json.specs.declared.tree.Tree.{Tree};
ghost use Rattle.spec_recurrence.specs.SeriesOf.{series_in};
ghost use Rattle.spec_bookings.specs.BookedResources.{bookings_of};
ghost use Rattle.spec_bookings.specs.Resources.{is_resource, resources_at};
ghost use Rattle.spec_bookings.specs.SeriesPut.{series_put};
ghost use Rattle.spec_site.specs.TimeZones.{ZoneText};

/// An account without changes has no rooms. Where the number of the next calendar isn't taken, a change that fits keeps what the rooms keep:
/// among it, that no second of a resource is covered twice.
pub fn rooms_follow_changes()
    ensures none { (zones : List ZoneText) → AreRooms zones [] [] }
    ensures more { (zones : List ZoneText) (cs : List Change) (c : Change) (rs : List BookedRoom) → AreRooms zones cs rs → IsFit zones cs c
        → is_in (ids_at cs Calendar) (next_number cs Calendar) ≡ false → AreRooms zones (cs ++ c ∷ []) (rooms_after c (series_put zones c) rs) }
    ensures may { (zones : List ZoneText) (cs : List Change) (c : Change) (rs : List BookedRoom) → AreRooms zones cs rs → IsFit zones cs c → MayChange rs c.kind c.object (series_put zones c) }
{}

/// The rooms of a history are those of another that puts its live objects again, calendars first and then events. A calendar is put again under a number that none has
/// there, and an event where it fits.
pub fn rooms_are_of_live_objects()
    ensures calendar { (zones : List ZoneText) (cs : List Change) (id : ℕ) (t : Tree) (rs : List BookedRoom) → AreRooms zones cs rs → is_in (ids_at cs Calendar) id ≡ false
        → AreRooms zones (cs ++ (record { kind = Calendar; id = id; object = Some t }) ∷ []) (rooms_by Calendar id (Some t) None rs) }
    ensures event { (zones : List ZoneText) (cs : List Change) (id : ℕ) (t : Tree) (rs : List BookedRoom) → AreRooms zones cs rs → IsEventFit zones cs id (data_of t)
        → AreRooms zones (cs ++ (record { kind = Event; id = id; object = Some t }) ∷ []) (rooms_by Event id (Some t) (series_in zones (data_of t)) rs) }
    ensures same { (zones : List ZoneText) (again cs : List Change) → ArePutAgain again cs → (rs : List BookedRoom) → AreRooms zones again rs → AreRooms zones cs rs }
{}

/// The rooms of an account are its live resource calendars, and hold their bookings.
pub fn rooms_are_of_resources()
    ensures calendars { (zones : List ZoneText) (cs : List Change) → map (λ r. r.calendar) (rooms_at zones cs) ≡ resources_at cs }
    ensures there { (zones : List ZoneText) (cs : List Change) (n : ℕ) → is_resource cs n ≡ true → has_room n (rooms_at zones cs) ≡ true }
    ensures bookings { (zones : List ZoneText) (cs : List Change) (n : ℕ) → is_resource cs n ≡ true → bookings_in n (rooms_at zones cs) ≡ bookings_of zones cs n }
{}

/// Bookings of which no second is covered twice, as the tests tell, have no two different occurrences that cover one second.
pub fn free_rooms_are_covered_once()
    ensures { (zones : List ZoneText) (cs : List Change) → AreFree zones cs → AreCoveredOnce zones cs }
{}
