//! All participants of an event.
ghost use Rattle.std.specs.Prelude.{◌≡◌, IfOk, option_map};
ghost use Rattle.spec_events.specs.Participants.{any_meets};

use crate::finds::Finds;
use crate::participant::Participant;
use spec_json::text::Text;
use std::alloc::AllocError;
use std::marker::Model;

/// The participants of an event, in byte order of their Ids. Contracts see the properties of each.
#[derive(Drop)]
pub struct People {
    participants: Vec<Participant>,
}

impl Model for People {
    ghost use Rattle.std.specs.Prelude.{List};
    ghost use Rattle.spec_events.specs.Participants.{ParticipantProperties};

    ghost Value = { List ParticipantProperties };

    ghost view = { λ a. a.participants.items };
}

impl People {
    /// These participants. Takes no memory.
    pub(crate) fn new(participants: Vec<Participant>) -> People
        ensures { result ≡ participants.items }
    {
        People { participants }
    }

    /// Whether one and the same participant has a text that is looked for, if one is, and the status that is, if one is.
    ///
    /// Takes memory where the test of texts does.
    pub fn any<F: Finds>(
        &self,
        finds: Option<&F>,
        status: Option<&Text>,
    ) -> Result<bool, AllocError>
        ensures { IfOk result (λ b. b ≡ any_meets (option_map (λ f. F.finds f.now) finds.entry) (option_map (λ t. t.now) status.entry) self.now) }
    {
        for participant in &self.participants {
            if participant.meets(finds, status)? {
                return Ok(true);
            }
        }
        Ok(false)
    }
}
