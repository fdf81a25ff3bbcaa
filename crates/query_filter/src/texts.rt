//! What the texts of a condition are looked for in.
ghost use Rattle.std.specs.Prelude.{◌≡◌, IfOk, false, map, option_map, true};
ghost use Rattle.std.specs.List.{list_any};
ghost use Rattle.std.specs.Option.{option_map_or};
ghost use Rattle.std.specs.Str.{bytes_eq};
ghost use Rattle.folded_text.specs.Contains.{contains};
ghost use Rattle.spec_events.specs.Events.{participants_of};
ghost use Rattle.spec_events.specs.Participants.{has_text, meets, participant_in, texts_among};
ghost use Rattle.spec_filters.specs.Matches.{contains_at, has_uid, is_called, is_in_calendar, people_meet, says};
ghost use Rattle.spec_json.specs.TreeData.{data_of, pair_of};

use crate::needles::Needles;
use spec_json::text::Text;
use spec_json::tree::{Member, Tree};
use std::alloc::{AllocError, Global};

/// Whether an event is in the calendar of an id. Takes no memory.
pub(crate) fn is_in_calendar(event: &Tree, id: &Text) -> bool
    ensures { result ≡ is_in_calendar (data_of event.now) id.now }
{
    match event.object_at("calendarIds") {
        Some(calendars) => calendars.get(id.as_str()).is_some(),
        None => false,
    }
}

/// Whether an event has this uid. Takes no memory.
pub(crate) fn has_uid(event: &Tree, uid: &Text) -> bool
    ensures { result ≡ has_uid (data_of event.now) uid.now }
{
    match event.text_at("uid") {
        Some(own) => uid.as_str() == own.as_str(),
        None => false,
    }
}

impl Needles {
    /// Whether a text of the event contains another, whatever their case. Takes memory for the folded texts.
    pub(crate) fn are_at(
        &self,
        alloc: Global,
        key: &str,
        event: &Tree,
        needle: &Text,
    ) -> Result<bool, AllocError>
        ensures { IfOk result (λ b. b ≡ contains_at key.now (data_of event.now) needle.now) }
    {
        match event.text_at(key) {
            Some(text) => self.contains(alloc, text.as_str(), needle),
            None => self.contains(alloc, "", needle),
        }
    }

    /// Whether the title, the description, or a participant's name or email contains a text, whatever their case. Takes memory
    /// for the folded texts.
    pub(crate) fn are_said(
        &self,
        alloc: Global,
        event: &Tree,
        needle: &Text,
    ) -> Result<bool, AllocError>
        ensures { IfOk result (λ b. b ≡ says (data_of event.now) needle.now) }
    {
        if self.are_at(alloc, "title", event, needle)? {
            return Ok(true);
        }
        if self.are_at(alloc, "description", event, needle)? {
            return Ok(true);
        }
        self.any_is_called(alloc, participants_of(event), needle)
    }

    fn any_is_called(
        &self,
        alloc: Global,
        participants: &[Member],
        needle: &Text,
    ) -> Result<bool, AllocError>
        ensures { IfOk result (λ b. b ≡ list_any (is_called needle.now) (map (λ p. participant_in p.1) (map pair_of participants.now))) }
    {
        for participant in participants {
            if self.is_called(alloc, &participant.value, needle)? {
                return Ok(true);
            }
        }
        Ok(false)
    }

    // The name or the email of a participant contains the text.
    fn is_called(
        &self,
        alloc: Global,
        participant: &Tree,
        needle: &Text,
    ) -> Result<bool, AllocError>
        ensures { IfOk result (λ b. b ≡ is_called needle.now (participant_in (data_of participant.now))) }
    {
        if self.is_in(alloc, participant.text_at("name"), needle)? {
            return Ok(true);
        }
        self.is_in(alloc, participant.text_at("email"), needle)
    }

    // The text, if there is one, contains the other.
    fn is_in(&self, alloc: Global, text: Option<&Text>, needle: &Text) -> Result<bool, AllocError>
        ensures { IfOk result (λ b. b ≡ option_map_or (λ t. contains t needle.now) (option_map (λ t. t.now) text.entry) false) }
    {
        match text {
            Some(text) => self.contains(alloc, text.as_str(), needle),
            None => Ok(false),
        }
    }

    /// Whether one participant of the event has a text that contains the one, if it is looked for, and the status, if one is.
    /// Where neither is, the event passes. Takes memory for the folded texts.
    pub(crate) fn people_meet(
        &self,
        alloc: Global,
        event: &Tree,
        needle: Option<&Text>,
        status: Option<&Text>,
    ) -> Result<bool, AllocError>
        ensures { IfOk result (λ b. b ≡ people_meet (data_of event.now) (option_map (λ t. t.now) needle.entry) (option_map (λ t. t.now) status.entry)) }
    {
        if needle.is_none() && status.is_none() {
            return Ok(true);
        }
        self.any_meets(alloc, participants_of(event), needle, status)
    }

    fn any_meets(
        &self,
        alloc: Global,
        participants: &[Member],
        needle: Option<&Text>,
        status: Option<&Text>,
    ) -> Result<bool, AllocError>
        ensures { IfOk result (λ b. b ≡ list_any (meets (option_map (λ n s. contains s n.now) needle.entry) (option_map (λ t. t.now) status.entry)) (map (λ p. participant_in p.1) (map pair_of participants.now))) }
    {
        for participant in participants {
            if self.meets(alloc, &participant.value, needle, status)? {
                return Ok(true);
            }
        }
        Ok(false)
    }

    // The participant has a text that contains the one, if it is looked for, and the status, if one is.
    fn meets(
        &self,
        alloc: Global,
        participant: &Tree,
        needle: Option<&Text>,
        status: Option<&Text>,
    ) -> Result<bool, AllocError>
        ensures { IfOk result (λ b. b ≡ meets (option_map (λ n s. contains s n.now) needle.entry) (option_map (λ t. t.now) status.entry) (participant_in (data_of participant.now))) }
    {
        if !has_status(participant, status) {
            return Ok(false);
        }
        match needle {
            Some(needle) => self.has_text(alloc, participant, needle),
            None => Ok(true),
        }
    }

    // The name, the email or a text of `sendTo` contains the text.
    fn has_text(&self, alloc: Global, participant: &Tree, needle: &Text) -> Result<bool, AllocError>
        ensures { IfOk result (λ b. b ≡ has_text (λ s. contains s needle.now) (participant_in (data_of participant.now))) }
    {
        if self.is_in(alloc, participant.text_at("name"), needle)? {
            return Ok(true);
        }
        if self.is_in(alloc, participant.text_at("email"), needle)? {
            return Ok(true);
        }
        match participant.object_at("sendTo") {
            Some(methods) => self.are_among(alloc, methods.members(), needle),
            None => Ok(false),
        }
    }

    // A text among the values of some members contains the text.
    #[tactic(auto, using(crate::proofs::TextLemmas::any_of_some))]
    fn are_among(
        &self,
        alloc: Global,
        members: &[Member],
        needle: &Text,
    ) -> Result<bool, AllocError>
        ensures { IfOk result (λ b. b ≡ list_any (λ s. contains s needle.now) (texts_among (map pair_of members.now))) }
    {
        for member in members {
            if self.is_in(alloc, member.value.as_text(), needle)? {
                return Ok(true);
            }
        }
        Ok(false)
    }
}

// The status of a participant is this one, if one is looked for.
fn has_status(participant: &Tree, status: Option<&Text>) -> bool
    ensures { result ≡ option_map_or (bytes_eq (participant_in (data_of participant.now)).status) (option_map (λ t. t.now) status.entry) true }
{
    match status {
        Some(status) => is_status(participant, status.as_str()),
        None => true,
    }
}

fn is_status(participant: &Tree, status: &str) -> bool
    ensures { result ≡ bytes_eq (participant_in (data_of participant.now)).status status.now }
{
    match participant.text_at("participationStatus") {
        Some(own) => own.as_str() == status,
        None => "needs-action" == status,
    }
}

// The participants of an event under their Ids.
fn participants_of(event: &Tree) -> &[Member]
    ensures { map (λ p. participant_in p.1) (map pair_of result.now) ≡ participants_of (data_of event.now) }
{
    match event.get("participants") {
        Some(participants) => participants.members_in(),
        None => &[],
    }
}
