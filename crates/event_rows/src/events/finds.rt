//! Rows of participants among whom one looks for a text, a status or both.
use participants::finds::Finds;
use participants::read::{ParticipantsError, read_participants};
use row_table::answers::word;
use spec_json::text::Text;
use spec_json::tree::Tree;
use std::alloc::{AllocError, Global};

/// Looks for texts that begin with another, letter by letter.
#[derive(Clone, Copy)]
struct Beginning<'a> {
    text: &'a Text,
}

impl Finds for Beginning<'_> {
    ghost use Rattle.std.specs.Prelude.{◌==◌};
    ghost use Rattle.std.specs.List.{starts_with};

    ghost finds = { λ b text. starts_with (λ x y. x == y) text b.text.now };

    #[tactic(auto, using(std::proofs::lemmas::Str::Pattern::starts_text))]
    fn finds(&self, text: &str) -> Result<bool, AllocError> {
        Ok(text.starts_with(self.text.as_str()))
    }
}

/// Whether one of the `participants` has the `text` and the `status`; `bad` where they are no participants.
pub fn found(alloc: Global, question: &Tree) -> Result<Tree, AllocError> {
    let value = question.get("participants").unwrap_or(&Tree::Null);
    match read_participants(alloc, value) {
        Ok(people) => {
            let beginning = question.text_at("text").map(|text| Beginning { text });
            Ok(Tree::Truth(people.any(beginning.as_ref(), question.text_at("status"))?))
        }
        Err(ParticipantsError::BadParticipants) => word(alloc, "bad"),
        Err(ParticipantsError::NoMemory) => Err(AllocError),
    }
}
