//! What is written of a look for a slot.
ghost use Rattle.std.specs.Prelude.{◌≡◌, ◌<◌, ◌++◌, ◌∷◌, [], Err, All, IfOk, length};
ghost use Rattle.slot_request.specs.Told.{AreTold};
ghost use Rattle.slot_run.specs.Answers.{look_answer};
ghost use Rattle.slot_run.specs.Errors.{is_refusal};
ghost use Rattle.slot_run.specs.Texts.{answer_data, answer_text, found_data};
ghost use Rattle.spec_json.specs.Json.{text_of};
ghost use Rattle.spec_json.specs.TreeData.{data_of};

use crate::answer::find_slot;
use crate::refusal::{Refusal, SlotError};
use account_core::account::Account;
use json_edge::write::tree_text;
use slot_request::{start_tree, tried_list};
use spec_core::user::Grants;
use spec_json::text::Text;
use spec_json::tree::Tree;
use spec_slots::slot::FoundSlot;
use std::alloc::{AllocError, Global};

/// A text that answers what was asked for.
#[derive(Drop)]
pub(crate) struct Answer {
    pub text: Vec<u8>,
    pub is_refusal: bool,
}

/// The answer to bytes, on accounts of which a user has these grants, with a line feed. Takes memory for it.
pub(crate) fn answer_to(
    alloc: Global,
    grants: &Grants,
    accounts: &[Account],
    bytes: &[u8],
) -> Result<Answer, AllocError>
    requires { All (λ g. g.account < length accounts.now) grants.now }
    ensures text { IfOk result (λ a. a.text.items ≡ answer_text (look_answer grants.now accounts.now bytes.now)) }
    ensures refusal { IfOk result (λ a. a.is_refusal ≡ is_refusal (look_answer grants.now accounts.now bytes.now)) }
{
    match find_slot(alloc, grants, accounts, bytes) {
        Ok(found) => Ok(Answer {
            text: line_of(alloc, &found_tree(alloc, &found)?)?,
            is_refusal: false,
        }),
        Err(SlotError::Refused(refusal)) => Ok(Answer {
            text: line_of(alloc, &refusal_tree(alloc, refusal)?)?,
            is_refusal: true,
        }),
        Err(SlotError::NoMemory) => Err(AllocError),
    }
}

// The compact text of a tree, with a line feed.
fn line_of(alloc: Global, tree: &Tree) -> Result<Vec<u8>, AllocError>
    ensures { IfOk result (λ text. text.items ≡ text_of (data_of tree.now) ++ 10 ∷ []) }
{
    let mut text = tree_text(alloc, tree)?;
    text.push(b'\n')?;
    Ok(text)
}

fn refusal_tree(alloc: Global, refusal: Refusal) -> Result<Tree, AllocError>
    ensures { IfOk result (λ t. data_of t ≡ answer_data (Err refusal)) }
{
    let members = vec![in alloc; ("type", Tree::Text(Text::from_str(alloc, refusal.name())?))]?;
    Tree::object(alloc, members)
}

fn found_tree(alloc: Global, found: &FoundSlot) -> Result<Tree, AllocError>
    requires { AreTold found.now }
    ensures { IfOk result (λ t. data_of t ≡ found_data found.now) }
{
    let members = vec![in alloc;
        ("slot", start_tree(alloc, found.start)?),
        ("tried", tried_list(alloc, found.tried.items())?),
    ]?;
    Tree::object(alloc, members)
}
