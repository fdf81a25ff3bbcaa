//! The calls of a workload.
ghost use Rattle.std.specs.Prelude.{◌≡◌, ◌<◌, ◌+◌, ◌*◌, ◌∷◌, [], IfOk, codes, decimal, map, pos, true};
ghost use Rattle.spec_json.specs.Data.{items_of, list, members_of, object, text, truth};
ghost use Rattle.spec_json.specs.TreeData.{data_of, keyed};
ghost use Rattle.spec_time.specs.LocalTimes.{local_text, seconds_of_clock};
ghost use Rattle.spec_time.specs.Walls.{is_in_years, wall_at};
ghost use Rattle.workload.specs.Generated.{call_asking, create_call, drawn, event, page_call, request_call, room_call, weekly};

use spec_calls::call::{Asks, Call, ChangesArguments, SetArguments};
use spec_history::entry::Kind;
use spec_json::lists::Pairs;
use spec_json::num::Num;
use spec_json::text::Text;
use spec_json::tree::{Member, Tree, TreeList, TreeObject};
use spec_time::wall::Wall;
use std::alloc::{AllocError, Global};
use time_text::local_text;

/// The creation id of what a call creates.
pub(crate) const CREATION_ID: &str = "new";
/// The number of 2024-01-01.
const FIRST_DAY: i64 = 19723;
/// The most ids that a page of changes may have.
const MAX_IDS: i128 = 500;

/// What a draw makes of the number before it.
pub(crate) fn drawn(number: u32) -> u32
    ensures { result ≡ drawn number }
{
    ((75 * u64::from(number) + 74) % 65537) as u32
}

/// The call that creates the calendar of the room.
pub(crate) fn room_call(alloc: Global) -> Result<Call, AllocError>
    ensures { IfOk result (λ call. call ≡ room_call) }
{
    let members = vec![in alloc;
        ("name", text(alloc, "room")?),
        ("resourceZone", text(alloc, "Etc/UTC")?),
    ]?;
    create_call(alloc, Kind::Calendar, Tree::object(alloc, members)?)
}

/// The call of a request of this number, by its three draws.
pub(crate) fn request_call(
    alloc: Global,
    request: u32,
    a: u32,
    b: u32,
    c: u32,
) -> Result<Call, AllocError>
    ensures { IfOk result (λ call. call ≡ request_call request a b c) }
{
    let start = start(a % 700, 8 + b % 10);
    let event = event(alloc, request, start, 1 + c % 4)?;
    create_call(alloc, Kind::Event, event)
}

// The wall second of an hour, so many days behind the first.
fn start(days: u32, hour: u32) -> Wall
    requires { (days < 700) × (hour < 24) }
    ensures start { result ≡ wall_at (pos (19723 + days)) (seconds_of_clock hour 0 0) }
    ensures years { is_in_years result ≡ true }
{
    Wall::new((FIRST_DAY + i64::from(days)) * 86400 + i64::from(hour) * 3600)
}

// An event of one hour in the room, from a wall second on and again each so many weeks.
fn event(alloc: Global, request: u32, start: Wall, interval: u32) -> Result<Tree, AllocError>
    requires { is_in_years start ≡ true }
    ensures { IfOk result (λ tree. tree ≡ Tree.Object (event request start interval)) }
{
    let mut members = leading(alloc, interval)?;
    members.append(&mut trailing(alloc, request, start)?)?;
    Tree::object(alloc, members)
}

// The members of the event up to its rules, in byte order of their names.
fn leading(alloc: Global, interval: u32) -> Result<Vec<(&'static str, Tree)>, AllocError>
    ensures { IfOk result (λ ms. map keyed ms.items ≡
        (codes "calendarIds", object (members_of ((codes "C1", truth true) ∷ [])))
        ∷ (codes "duration", text (codes "PT1H"))
        ∷ (codes "recurrenceRules", list (items_of (weekly interval ∷ []))) ∷ []) }
{
    let calendars = Tree::object(alloc, vec![in alloc; ("C1", Tree::Truth(true))]?)?;
    let duration = text(alloc, "PT1H")?;
    let rules = Tree::List(TreeList::new(vec![in alloc; weekly(alloc, interval)?]?));
    Ok(vec![in alloc;
        ("calendarIds", calendars),
        ("duration", duration),
        ("recurrenceRules", rules),
    ]?)
}

// The members of the event after its rules, in byte order of their names.
fn trailing(
    alloc: Global,
    request: u32,
    start: Wall,
) -> Result<Vec<(&'static str, Tree)>, AllocError>
    requires { is_in_years start ≡ true }
    ensures { IfOk result (λ ms. map keyed ms.items ≡
        (codes "start", text (local_text start))
        ∷ (codes "timeZone", text (codes "Etc/UTC"))
        ∷ (codes "uid", text (119 ∷ decimal request)) ∷ []) }
{
    let uid = Tree::Text(Text::from_string(format!(in alloc; "w{request}")?)?);
    let start = Tree::Text(local_text(alloc, start)?);
    let zone = text(alloc, "Etc/UTC")?;
    Ok(vec![in alloc; ("start", start), ("timeZone", zone), ("uid", uid)]?)
}

// A weekly rule.
fn weekly(alloc: Global, interval: u32) -> Result<Tree, AllocError>
    ensures { IfOk result (λ tree. data_of tree ≡ weekly interval) }
{
    let members = vec![in alloc;
        ("frequency", text(alloc, "weekly")?),
        ("interval", Tree::Whole(Num::new(i128::from(interval)))),
    ]?;
    Tree::object(alloc, members)
}

// A set that creates one object.
fn create_call(alloc: Global, kind: Kind, object: Tree) -> Result<Call, AllocError>
    ensures { IfOk result (λ call. call ≡ create_call kind (data_of object)) }
{
    let created = Member {
        key: Text::from_str(alloc, CREATION_ID)?,
        value: object,
    };
    let create = TreeObject::new(vec![in alloc; created]?);
    Ok(call_asking(
        alloc,
        Asks::Set(SetArguments {
            kind,
            if_in_state: None,
            create: Some(create),
            update: None,
            destroy: None,
            remove_events: None,
        }),
    ))
}

/// A call for the changes of events since a state.
pub(crate) fn page_call(alloc: Global, since: Text) -> Call
    ensures { result ≡ page_call since }
{
    call_asking(
        alloc,
        Asks::Changes(ChangesArguments {
            kind: Kind::Event,
            since,
            max: Some(Num::new(MAX_IDS)),
        }),
    )
}

fn call_asking(alloc: Global, asks: Asks) -> Call
    ensures { result ≡ call_asking asks }
{
    Call {
        created: Pairs::new(Vec::new(alloc)),
        asks,
    }
}

fn text(alloc: Global, text: &str) -> Result<Tree, AllocError>
    ensures { IfOk result (λ tree. tree ≡ Tree.Text text.now) }
{
    Ok(Tree::Text(Text::from_str(alloc, text)?))
}
