//! The table of a participant's properties.
ghost use Rattle.std.specs.Prelude.{◌≡◌, ◌∷◌, [], Some, IfOk, codes, map};
ghost use Rattle.std.specs.List.{list_all};
ghost use Rattle.spec_events.specs.Participants.{are_participants, are_roles, are_texts, is_participant, is_participant_member, is_participation_status, participant_table};
ghost use Rattle.spec_events.specs.Values.{is_object_that, is_one_of, is_true};
ghost use Rattle.spec_json.specs.TreeData.{data_of, pair_of};
ghost use Rattle.property_table.specs.Table.{test_at};
ghost use Rattle.property_table.specs.Values.{is_text};

use property_table::table::{PropertyTable, failing_names};
use property_table::values::is_text;
use spec_events::limits::MAX_PARTICIPANTS;
use spec_events::values::{is_one_of, is_true};
use spec_json::tree::{Member, Tree};
use std::alloc::{AllocError, Global};
use time_text::read_id;

/// Whether this is an object of participants by their Ids. Takes memory for the names of bad properties.
#[tactic(auto, using(spec_json::specs::Data::pairs_back))]
pub fn are_participants(alloc: Global, value: &Tree) -> Result<bool, AllocError>
    ensures { IfOk result (λ b. b ≡ is_object_that are_participants (data_of value.now)) }
{
    match value {
        Tree::Object(object) => are_few_participants(alloc, object.members()),
        _ => Ok(false),
    }
}

fn are_few_participants(alloc: Global, members: &[Member]) -> Result<bool, AllocError>
    ensures { IfOk result (λ b. b ≡ are_participants (map pair_of members.now)) }
{
    if members.len() > MAX_PARTICIPANTS {
        return Ok(false);
    }
    all_participants(alloc, members)
}

fn all_participants(alloc: Global, members: &[Member]) -> Result<bool, AllocError>
    ensures { IfOk result (λ b. b ≡ list_all is_participant_member (map pair_of members.now)) }
{
    for member in members {
        if !is_participant_member(alloc, member)? {
            return Ok(false);
        }
    }
    Ok(true)
}

fn is_participant_member(alloc: Global, member: &Member) -> Result<bool, AllocError>
    ensures { IfOk result (λ b. b ≡ is_participant_member (pair_of member.now)) }
{
    if !read_id(member.key.as_str().as_bytes()) {
        return Ok(false);
    }
    is_participant(alloc, &member.value)
}

fn is_participant(alloc: Global, value: &Tree) -> Result<bool, AllocError>
    ensures { IfOk result (λ b. b ≡ is_participant (data_of value.now)) }
{
    Ok(failing_names(alloc, &ParticipantTable, value)?.is_empty())
}

/// The properties of a participant.
#[derive(Clone, Copy)]
struct ParticipantTable;

impl PropertyTable for ParticipantTable {
    ghost use Rattle.spec_events.specs.Participants.{participant_table};

    ghost table = { λ t. participant_table };

    fn passes(&self, name: &str, value: &Tree) -> Result<bool, AllocError> {
        Ok(passes(name, value))
    }

    #[tactic(auto, unfolding(spec_events::specs::Participants::participant_table))]
    fn required_names(&self) -> &'static [&'static str] {
        &["roles"]
    }
}

#[tactic(auto, unfolding(spec_events::specs::Participants::participant_table))]
fn passes(name: &str, value: &Tree) -> bool
    ensures { result ≡ test_at participant_table name.now (Some (data_of value.now)) }
{
    match name {
        "@type" => is_participant_type(value),
        "roles" => are_roles(value),
        "name" | "email" => is_text(value),
        "sendTo" => are_texts(value),
        "participationStatus" => is_participation_status(value),
        _ => true,
    }
}

fn is_participant_type(value: &Tree) -> bool
    ensures { result ≡ is_one_of (codes "Participant" ∷ []) (data_of value.now) }
{
    is_one_of(value, &["Participant"])
}

fn is_participation_status(value: &Tree) -> bool
    ensures { result ≡ is_participation_status (data_of value.now) }
{
    is_one_of(
        value,
        &[
            "needs-action",
            "accepted",
            "declined",
            "tentative",
            "delegated",
        ],
    )
}

#[tactic(auto, using(spec_json::specs::Data::pairs_back))]
fn are_roles(value: &Tree) -> bool
    ensures { result ≡ is_object_that are_roles (data_of value.now) }
{
    match value {
        Tree::Object(object) => are_some_roles(object.members()),
        _ => false,
    }
}

fn are_some_roles(members: &[Member]) -> bool
    ensures { result ≡ are_roles (map pair_of members.now) }
{
    !members.is_empty() && all_true(members)
}

fn all_true(members: &[Member]) -> bool
    ensures { result ≡ list_all (λ p. is_true p.1) (map pair_of members.now) }
{
    for member in members {
        if !is_true(&member.value) {
            return false;
        }
    }
    true
}

#[tactic(auto, using(spec_json::specs::Data::pairs_back))]
fn are_texts(value: &Tree) -> bool
    ensures { result ≡ is_object_that are_texts (data_of value.now) }
{
    match value {
        Tree::Object(object) => all_texts(object.members()),
        _ => false,
    }
}

fn all_texts(members: &[Member]) -> bool
    ensures { result ≡ are_texts (map pair_of members.now) }
{
    for member in members {
        if !is_text(&member.value) {
            return false;
        }
    }
    true
}
