//! A participant.
ghost use Rattle.std.specs.Prelude.{◌≡◌, IfOk, false};
ghost use Rattle.std.specs.List.{list_any};
ghost use Rattle.std.specs.Option.{option_map_or};
ghost use Rattle.spec_events.specs.Participants.{has_text, meets};

use crate::finds::Finds;
use spec_json::lists::Texts;
use spec_json::text::Text;
use std::alloc::AllocError;
use std::marker::Model;

/// A participant of an event. Contracts see the properties.
#[derive(Drop)]
pub struct Participant {
    pub(crate) name: Option<Text>,
    pub(crate) email: Option<Text>,
    pub(crate) send_to: Texts,
    pub(crate) status: Text,
}

impl Model for Participant {
    ghost use Rattle.spec_events.specs.Participants.{ParticipantProperties};

    ghost Value = { ParticipantProperties };

    ghost view = { λ a. record { name = a.name; email = a.email; send_to = a.send_to; status = a.status } };
}

impl Participant {
    ghost use Rattle.std.specs.Prelude.{option_map, true};
    ghost use Rattle.std.specs.Str.{bytes_eq};

    /// Whether this participant has a text that is looked for, if one is, and the status that is, if one is.
    pub fn meets<F: Finds>(
        &self,
        finds: Option<&F>,
        status: Option<&Text>,
    ) -> Result<bool, AllocError>
        ensures { IfOk result (λ b. b ≡ meets (option_map (λ f. F.finds f.now) finds.entry) (option_map (λ t. t.now) status.entry) self.now) }
    {
        if !self.has_status(status) {
            return Ok(false);
        }
        match finds {
            Some(finds) => self.has_text(finds),
            None => Ok(true),
        }
    }

    fn has_status(&self, status: Option<&Text>) -> bool
        ensures { result ≡ option_map_or (λ t. bytes_eq self.now.status t.now) status.entry true }
    {
        match status {
            Some(status) => self.status.as_str() == status.as_str(),
            None => true,
        }
    }

    // A text by which the participant may be found passes.
    fn has_text<F: Finds>(&self, finds: &F) -> Result<bool, AllocError>
        ensures { IfOk result (λ b. b ≡ has_text (F.finds finds.now) self.now) }
    {
        if is_found(finds, &self.name)? {
            return Ok(true);
        }
        if is_found(finds, &self.email)? {
            return Ok(true);
        }
        any_found(finds, self.send_to.items())
    }
}

fn is_found<F: Finds>(finds: &F, text: &Option<Text>) -> Result<bool, AllocError>
    ensures { IfOk result (λ b. b ≡ option_map_or (F.finds finds.now) text.now false) }
{
    match text {
        Some(text) => finds.finds(text.as_str()),
        None => Ok(false),
    }
}

fn any_found<F: Finds>(finds: &F, texts: &[Text]) -> Result<bool, AllocError>
    ensures { IfOk result (λ b. b ≡ list_any (F.finds finds.now) texts.now) }
{
    for text in texts {
        if finds.finds(text.as_str())? {
            return Ok(true);
        }
    }
    Ok(false)
}
