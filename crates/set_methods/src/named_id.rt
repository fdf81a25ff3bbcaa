//! The objects that the texts of a call name.
ghost use Rattle.std.specs.Prelude.{◌≡◌, IfOk, []};
ghost use Rattle.cal_model.specs.Sets.{ids_named, names_id};

use object_outcomes::created_ids::CreatedIds;
use spec_json::text::Text;
use std::alloc::{AllocError, Global};
use std::marker::Model;

/// A text of a call and the id that it stands for.
#[derive(Drop)]
pub(crate) struct NamedId<'a> {
    text: &'a Text,
    id: &'a Text,
}

impl<'a> Model for NamedId<'a> {
    ghost use Rattle.std.specs.Prelude.{List, ℕ};

    ghost Value = { List ℕ × List ℕ };

    ghost view = { λ a. (a.text.now, a.id.now) };
}

impl<'a> NamedId<'a> {
    /// A text of a call and the id that it stands for. Takes no memory.
    pub(crate) fn new(text: &'a Text, id: &'a Text) -> NamedId<'a>
        ensures { result ≡ (text.now, id.now) }
    {
        NamedId { text, id }
    }

    /// The text of the call. Takes no memory.
    pub(crate) fn text(&self) -> &'a Text
        ensures { result.now ≡ self.now.0 }
    {
        self.text
    }

    /// The id. Takes no memory.
    pub(crate) fn id(&self) -> &'a Text
        ensures { result.now ≡ self.now.1 }
    {
        self.id
    }
}

/// Whether one of these has an id. Takes no memory.
pub(crate) fn names_id(named: &[NamedId<'_>], id: &Text) -> bool
    ensures { result ≡ names_id named.now id.now }
{
    named.iter().any(|other| other.id().as_str() == id.as_str())
}

/// The ids of these texts, each once under the first text that stands for it. Takes time with the square of their number.
pub(crate) fn ids_named<'a>(
    alloc: Global,
    created: &'a CreatedIds,
    texts: &'a [Text],
) -> Result<Vec<NamedId<'a>>, AllocError>
    ensures { IfOk result (λ v. v.items ≡ ids_named created.now texts.now) }
{
    let mut named = Vec::new(alloc);
    for text in texts {
        let id = created.resolved(text);
        if !names_id(&named, id) {
            named.push(NamedId::new(text, id))?;
        }
    }
    Ok(named)
}
