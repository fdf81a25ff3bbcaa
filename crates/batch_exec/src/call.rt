//! The calls on accounts that methods make of their arguments.
ghost use Rattle.std.specs.Prelude.{◌≡◌, ◌≢◌, [], IfOk, Some, codes, option_map, unwrap_or};
ghost use Rattle.spec_calls.specs.Asking.{argument, availability_asks, changes_asks, get_asks, list_tree, number_argument, object_tree, paging_given, query_asks, query_changes_asks, set_asks, slot_given, text_argument, truth_argument, zone_argument};
ghost use Rattle.spec_calls.specs.Methods.{call_of, row};
ghost use Rattle.spec_json.specs.Edit.{ChangesOnlyAt};
ghost use Rattle.spec_batch.specs.Meaning.{grant_of};
ghost use Rattle.spec_json.specs.Parts.{as_object, as_text, as_texts};
ghost use Rattle.spec_json.specs.declared.tree.Tree.TheVariants.{List as Listed};

use spec_calls::call::{
    Asks, AvailabilityArguments, Call, ChangesArguments, Criteria, GetArguments, Paging,
    QueryArguments, QueryChangesArguments, SetArguments, SlotArguments,
};
use spec_calls::method::Method;
use spec_core::user::{Grant, Grants};
use spec_history::entry::Kind;
use spec_json::lists::{Pairs, Texts};
use spec_json::num::Num;
use spec_json::text::Text;
use spec_json::tree::{Tree, TreeList, TreeObject};
use std::alloc::{AllocError, Global};

/// The time zone where a call names none.
const DEFAULT_ZONE: &str = "Etc/UTC";

/// The grant of the account that the argument `accountId` names. Takes no memory.
pub fn grant_of<'a>(grants: &'a Grants, arguments: &TreeObject) -> Option<&'a Grant>
    ensures { option_map (λ g. g.now) result ≡ grant_of (text_argument arguments.now (codes "accountId")) grants.now }
{
    let id = match arguments.get("accountId") {
        Some(Tree::Text(id)) => id.as_str(),
        _ => "",
    };
    grant_with_id(grants.items(), id)
}

fn grant_with_id<'a>(grants: &'a [Grant], id: &str) -> Option<&'a Grant>
    ensures { option_map (λ g. g.now) result ≡ grant_of id.now grants.now }
{
    for grant in grants {
        if grant.id.as_str() == id {
            return Some(grant);
        }
    }
    None
}

/// The call on an account that a method makes of its arguments, with the defaults of those that are absent
/// (RFC 8620 section 5).
///
/// `Core/echo` makes none. An argument of another kind of JSON counts as absent. `created` are the created ids of the
/// request so far. Texts and objects are moved out of the arguments; memory is taken for lists of texts and for defaults.
pub fn call_from(
    alloc: Global,
    method: Method,
    arguments: TreeObject,
    created: Pairs,
) -> Result<Call, AllocError>
    requires { method ≢ Method.Echo }
    ensures { IfOk result (λ call. call_of arguments created method ≡ Some call) }
{
    let asks = asks_from(alloc, method, arguments)?;
    Ok(Call { created, asks })
}

fn asks_from(alloc: Global, method: Method, arguments: TreeObject) -> Result<Asks, AllocError>
    requires { method ≢ Method.Echo }
    ensures { IfOk result (λ asks. option_map (λ of. of arguments) (row method).asks ≡ Some asks) }
{
    match method {
        Method::Echo => unreachable!(),
        Method::CalendarGet => get_asks(alloc, Kind::Calendar, arguments),
        Method::CalendarChanges => Ok(changes_asks(Kind::Calendar, arguments)),
        Method::CalendarSet => {
            let remove_events = arguments.truth_at("onDestroyRemoveEvents");
            set_asks(alloc, Kind::Calendar, remove_events, arguments)
        }
        Method::EventGet => get_asks(alloc, Kind::Event, arguments),
        Method::EventChanges => Ok(changes_asks(Kind::Event, arguments)),
        Method::EventSet => set_asks(alloc, Kind::Event, None, arguments),
        Method::EventQuery => query_asks(alloc, arguments),
        Method::EventQueryChanges => query_changes_asks(alloc, arguments),
        Method::GetAvailability => availability_asks(alloc, arguments),
        Method::FindSlot => Ok(Asks::Slot(slot_given(alloc, arguments))),
    }
}

fn get_asks(alloc: Global, kind: Kind, mut arguments: TreeObject) -> Result<Asks, AllocError>
    ensures { IfOk result (λ asks. asks ≡ get_asks arguments kind) }
{
    Ok(Asks::Get(GetArguments {
        kind,
        ids: take_texts(alloc, &mut arguments, "ids")?,
        properties: take_texts(alloc, &mut arguments, "properties")?,
    }))
}

fn changes_asks(kind: Kind, mut arguments: TreeObject) -> Asks
    ensures { result ≡ changes_asks arguments kind }
{
    Asks::Changes(ChangesArguments {
        kind,
        max: arguments.number_at("maxChanges"),
        since: take_text_or_empty(&mut arguments, "sinceState"),
    })
}

fn set_asks(
    alloc: Global,
    kind: Kind,
    remove_events: Option<bool>,
    mut arguments: TreeObject,
) -> Result<Asks, AllocError>
    ensures { IfOk result (λ asks. asks ≡ set_asks arguments kind remove_events) }
{
    Ok(Asks::Set(SetArguments {
        kind,
        if_in_state: take_text(&mut arguments, "ifInState"),
        create: take_object(&mut arguments, "create"),
        update: take_object(&mut arguments, "update"),
        destroy: take_texts(alloc, &mut arguments, "destroy")?,
        remove_events,
    }))
}

fn query_asks(alloc: Global, mut arguments: TreeObject) -> Result<Asks, AllocError>
    ensures { IfOk result (λ asks. asks ≡ query_asks arguments) }
{
    Ok(Asks::Query(QueryArguments {
        expand: is_true_at(&arguments, "expandRecurrences"),
        paging: take_paging(&mut arguments),
        criteria: Criteria {
            filter: take_filter(&mut arguments),
            sort: take_list(&mut arguments, "sort"),
            time_zone: take_zone(alloc, &mut arguments)?,
        },
    }))
}

fn query_changes_asks(alloc: Global, mut arguments: TreeObject) -> Result<Asks, AllocError>
    ensures { IfOk result (λ asks. asks ≡ query_changes_asks arguments) }
{
    Ok(Asks::QueryChanges(QueryChangesArguments {
        expand: is_true_at(&arguments, "expandRecurrences"),
        max: arguments.number_at("maxChanges"),
        calculate_total: is_true_at(&arguments, "calculateTotal"),
        since: take_text_or_empty(&mut arguments, "sinceQueryState"),
        up_to: take_text(&mut arguments, "upToId"),
        criteria: Criteria {
            filter: take_filter(&mut arguments),
            sort: take_list(&mut arguments, "sort"),
            time_zone: take_zone(alloc, &mut arguments)?,
        },
    }))
}

fn availability_asks(alloc: Global, mut arguments: TreeObject) -> Result<Asks, AllocError>
    ensures { IfOk result (λ asks. asks ≡ availability_asks arguments) }
{
    Ok(Asks::Availability(AvailabilityArguments {
        id: take_text_or_empty(&mut arguments, "id"),
        utc_start: take_text_or_empty(&mut arguments, "utcStart"),
        utc_end: take_text_or_empty(&mut arguments, "utcEnd"),
        time_zone: take_zone(alloc, &mut arguments)?,
    }))
}

/// The arguments of a call for a slot, without rules where there are none. Texts and rules are moved out. Takes no memory.
pub fn slot_given(alloc: Global, mut arguments: TreeObject) -> SlotArguments
    ensures { result ≡ slot_given arguments }
{
    SlotArguments {
        calendar: take_text_or_empty(&mut arguments, "calendarId"),
        duration: take_text_or_empty(&mut arguments, "duration"),
        after: take_text_or_empty(&mut arguments, "after"),
        before: take_text_or_empty(&mut arguments, "before"),
        rules: take_rules(alloc, &mut arguments),
    }
}

fn take_paging(arguments: &mut TreeObject) -> Paging
    ensures value { result ≡ paging_given arguments.old }
    ensures others { ChangesOnlyAt (codes "anchor") arguments.old arguments.new }
{
    Paging {
        position: number_or_zero(arguments, "position"),
        anchor_offset: number_or_zero(arguments, "anchorOffset"),
        limit: arguments.number_at("limit"),
        calculate_total: is_true_at(arguments, "calculateTotal"),
        anchor: take_text(arguments, "anchor"),
    }
}

fn number_or_zero(arguments: &TreeObject, key: &str) -> Num
    ensures { result ≡ number_argument arguments.now key.now }
{
    arguments.number_at(key).unwrap_or(Num::new(0))
}

fn is_true_at(arguments: &TreeObject, key: &str) -> bool
    ensures { result ≡ truth_argument arguments.now key.now }
{
    arguments.truth_at(key).unwrap_or(false)
}

fn take_text(arguments: &mut TreeObject, key: &str) -> Option<Text>
    ensures value { result ≡ argument arguments.old as_text key.now }
    ensures others { ChangesOnlyAt key.now arguments.old arguments.new }
{
    arguments.take(key).and_then(Tree::into_text)
}

fn take_text_or_empty(arguments: &mut TreeObject, key: &str) -> Text
    ensures value { result ≡ text_argument arguments.old key.now }
    ensures others { ChangesOnlyAt key.now arguments.old arguments.new }
{
    match take_text(arguments, key) {
        Some(text) => text,
        None => Text::empty(),
    }
}

fn take_zone(alloc: Global, arguments: &mut TreeObject) -> Result<Text, AllocError>
    ensures { IfOk result (λ zone. zone ≡ zone_argument arguments.old) }
{
    match take_text(arguments, "timeZone") {
        Some(zone) => Ok(zone),
        None => Text::from_str(alloc, DEFAULT_ZONE),
    }
}

fn take_texts(
    alloc: Global,
    arguments: &mut TreeObject,
    key: &str,
) -> Result<Option<Texts>, AllocError>
    ensures value { IfOk result (λ texts. texts ≡ argument arguments.old as_texts key.now) }
    ensures others { ChangesOnlyAt key.now arguments.old arguments.new }
{
    match arguments.take(key).and_then(Tree::into_list) {
        Some(list) => list.into_texts(alloc),
        None => Ok(None),
    }
}

fn take_object(arguments: &mut TreeObject, key: &str) -> Option<TreeObject>
    ensures value { result ≡ argument arguments.old as_object key.now }
    ensures others { ChangesOnlyAt key.now arguments.old arguments.new }
{
    arguments.take(key).and_then(Tree::into_object)
}

fn take_filter(arguments: &mut TreeObject) -> Option<Tree>
    ensures value { result ≡ argument arguments.old object_tree (codes "filter") }
    ensures others { ChangesOnlyAt (codes "filter") arguments.old arguments.new }
{
    take_object(arguments, "filter").map(Tree::Object)
}

fn take_list(arguments: &mut TreeObject, key: &str) -> Option<Tree>
    ensures value { result ≡ argument arguments.old list_tree key.now }
    ensures others { ChangesOnlyAt key.now arguments.old arguments.new }
{
    arguments
        .take(key)
        .and_then(Tree::into_list)
        .map(Tree::List)
}

fn take_rules(alloc: Global, arguments: &mut TreeObject) -> Tree
    ensures { result ≡ unwrap_or (argument arguments.old list_tree (codes "recurrenceRules")) (Listed []) }
{
    match take_list(arguments, "recurrenceRules") {
        Some(rules) => rules,
        None => Tree::List(TreeList::new(Vec::new(alloc))),
    }
}
