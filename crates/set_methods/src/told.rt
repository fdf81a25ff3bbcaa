//! What a set came to.

use crate::named_id::NamedId;
use cal_model::outcome::Outcome;
use spec_history::state::State;
use spec_json::text::Text;
use spec_json::tree::Member;

/// What the response to a set tells: the states before and after it, and what came of each object.
#[derive(Drop)]
pub(crate) struct Told<'a> {
    pub account: &'a Text,
    pub old_state: State,
    pub new_state: State,
    pub creates: &'a [Member],
    pub create_outcomes: &'a [Outcome],
    pub updates: &'a [Member],
    pub update_outcomes: &'a [Outcome],
    pub destroys: &'a [NamedId<'a>],
    pub destroy_outcomes: &'a [Outcome],
}
