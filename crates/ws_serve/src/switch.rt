//! Switches: texts that have a client told of changes, or told no more.
ghost use Rattle.std.specs.Prelude.{◌≡◌, map, option_map};
ghost use Rattle.spec_json.specs.TreeData.{data_of};
ghost use Rattle.spec_json.specs.Parts.{all_some, as_text};
ghost use Rattle.spec_sockets.specs.Switches.{enable_of, is_among, switch_of, types_in, types_named};
ghost use Rattle.spec_sockets.specs.Texts.{is_text_if_any, says_text};

use spec_json::text::Text;
use spec_json::tree::Tree;
use spec_push::data_types::DataTypes;
use spec_sockets::switch::Switch;

/// The switch that a JSON value is, where it is one (RFC 8887 sections 4.3.5.2 and 4.3.5.3). Takes no memory.
pub(crate) fn switch_of(tree: &Tree) -> Option<Switch>
    ensures { result ≡ switch_of (data_of tree.now) }
{
    if says_text(tree.text_at("@type"), "WebSocketPushEnable") {
        return enable_of(tree);
    }
    if says_text(tree.text_at("@type"), "WebSocketPushDisable") {
        return Some(Switch::Disable);
    }
    None
}

fn enable_of(tree: &Tree) -> Option<Switch>
    ensures { result ≡ enable_of (data_of tree.now) }
{
    if !is_text_if_any(tree.get("pushState")) {
        return None;
    }
    let types = types_in(tree.get("dataTypes")?)?;
    Some(Switch::Enable(types))
}

// The types that `dataTypes` asks for.
fn types_in(names: &Tree) -> Option<DataTypes>
    ensures { result ≡ types_in (data_of names.now) }
{
    match names {
        Tree::Null => Some(DataTypes {
            calendars: true,
            events: true,
        }),
        Tree::List(names) => types_named(names.items()),
        _ => None,
    }
}

// The types of these names, where each is a text.
fn types_named(names: &[Tree]) -> Option<DataTypes>
    ensures { result ≡ option_map types_named (all_some as_text (map data_of names.now)) }
{
    let mut calendars = false;
    let mut events = false;
    for name in names {
        let name = name.as_text()?;
        calendars = calendars || name.as_str() == "Calendar";
        events = events || name.as_str() == "CalendarEvent";
    }
    Some(DataTypes { calendars, events })
}

/// Whether there is a text, and it is this one. Takes no memory.
pub(crate) fn says_text(text: Option<&Text>, wanted: &str) -> bool
    ensures { result ≡ says_text wanted.now (option_map (λ t. t.now) text.entry) }
{
    match text {
        Some(text) => text.as_str() == wanted,
        None => false,
    }
}

/// Whether a member is absent, or a text. Takes no memory.
pub(crate) fn is_text_if_any(member: Option<&Tree>) -> bool
    ensures { result ≡ is_text_if_any (option_map (λ t. data_of t.now) member.entry) }
{
    match member {
        None => true,
        Some(Tree::Text(_)) => true,
        Some(_) => false,
    }
}
