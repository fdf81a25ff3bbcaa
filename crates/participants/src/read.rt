//! Reads participants.
ghost use Rattle.std.specs.Prelude.{◌≡◌, [], IfErr, IfOk, OnOk, codes, map, true, unwrap_or};
ghost use Rattle.spec_events.specs.Participants.{are_participants, participant_in, people_in, texts_among};
ghost use Rattle.spec_events.specs.Values.{is_object_that};
ghost use Rattle.spec_json.specs.Parts.{object_at, text_at};
ghost use Rattle.spec_json.specs.TreeData.{data_of, pair_of};
ghost use Rattle.participants.specs.Reports.{Reports};
ghost use Rattle.participants.specs.declared.read.ParticipantsError.TheVariants.{NoMemory};

use crate::participant::Participant;
use crate::people::People;
use crate::table::are_participants;
use spec_events::values::copy_at;
use spec_json::lists::Texts;
use spec_json::text::Text;
use spec_json::tree::{Member, Tree};
use std::alloc::{AllocError, Global};

/// Why there are no participants.
#[derive(Clone, Copy, Debug, PartialEq, Eq, Drop)]
pub enum ParticipantsError {
    /// The value is no object of participants.
    BadParticipants,
    /// There was no memory.
    NoMemory,
}

impl From<AllocError> for ParticipantsError {
    ghost from_gives = { λ _ error. error ≡ NoMemory };

    fn from(_: AllocError) -> Self {
        ParticipantsError::NoMemory
    }
}

/// Reads the value of `participants`, an object of participants by their Ids.
///
/// In a participant a member that is null counts as left out. Takes memory for a copy of the texts.
pub fn read_participants(alloc: Global, tree: &Tree) -> Result<People, ParticipantsError>
    ensures value { IfOk result (λ people. people ≡ people_in (data_of tree.now)) }
    ensures valid { OnOk result (is_object_that are_participants (data_of tree.now) ≡ true) }
    ensures err { IfErr result (λ error. Reports error (is_object_that are_participants (data_of tree.now))) }
{
    if !are_participants(alloc, tree)? {
        return Err(ParticipantsError::BadParticipants);
    }
    Ok(people_in(alloc, tree)?)
}

/// The participants that an object holds, as far as each of its members means one. Takes memory for a copy of the texts.
pub fn people_in(alloc: Global, tree: &Tree) -> Result<People, AllocError>
    ensures { IfOk result (λ people. people ≡ people_in (data_of tree.now)) }
{
    let members = tree.members_in();
    let mut people = Vec::with_capacity(alloc, members.len())?;
    for member in members {
        people.push(participant_in(alloc, &member.value)?)?;
    }
    Ok(People::new(people))
}

fn participant_in(alloc: Global, tree: &Tree) -> Result<Participant, AllocError>
    ensures { IfOk result (λ p. p ≡ participant_in (data_of tree.now)) }
{
    Ok(Participant {
        name: copy_at(tree, "name")?,
        email: copy_at(tree, "email")?,
        send_to: Texts::new(texts_at(alloc, tree, "sendTo")?),
        status: status(alloc, tree)?,
    })
}

// The texts among the values of the object at a key.
fn texts_at(alloc: Global, tree: &Tree, key: &str) -> Result<Vec<Text>, AllocError>
    ensures { IfOk result (λ v. v.items ≡ texts_among (unwrap_or (object_at key.now (data_of tree.now)) [])) }
{
    match tree.object_at(key) {
        Some(object) => texts_among(alloc, object.members()),
        None => Ok(Vec::new(alloc)),
    }
}

fn texts_among(alloc: Global, members: &[Member]) -> Result<Vec<Text>, AllocError>
    ensures { IfOk result (λ v. v.items ≡ texts_among (map pair_of members.now)) }
{
    let mut texts = Vec::new(alloc);
    for member in members {
        if let Some(text) = member.value.as_text() {
            texts.push(text.copy()?)?;
        }
    }
    Ok(texts)
}

fn status(alloc: Global, tree: &Tree) -> Result<Text, AllocError>
    ensures { IfOk result (λ t. t ≡ unwrap_or (text_at (codes "participationStatus") (data_of tree.now)) (codes "needs-action")) }
{
    match tree.text_at("participationStatus") {
        Some(text) => text.copy(),
        None => Text::from_str(alloc, "needs-action"),
    }
}
