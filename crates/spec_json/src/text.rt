//! Texts.
ghost use Rattle.std.specs.Prelude.{◌≡◌, [], IfOk, IfSome, string_bytes};
ghost use Rattle.spec_json.specs.Forms.{form_bytes};

use crate::inline::InlineText;
use std::alloc::{AllocError, Global};
use std::marker::Model;

/// The most bytes of a text that lies in its own place. With its length and the tag of `Text` they fill 24 bytes, the room of a `String`.
pub(crate) const MAX_SHORT: usize = 22;

/// The most bytes of a text that lies in a block of its own size, as a UUID does. With its length they fill 40 bytes, where a `String` in a box takes two blocks.
pub(crate) const MAX_MIDDLE: usize = 39;

/// A text. Contracts see its bytes, which are UTF-8. Up to 22 bytes take no memory.
#[derive(Drop)]
pub struct Text {
    form: Form,
}

#[derive(Drop)]
pub(crate) enum Form {
    Short(InlineText<MAX_SHORT>),
    // in boxes, so that they take no more room than a short one
    Middle(Box<InlineText<MAX_MIDDLE>>),
    Long(Box<String>),
}

impl Model for Text {
    ghost use Rattle.std.specs.Prelude.{List, ℕ};
    ghost use Rattle.spec_json.specs.Forms.{form_bytes};

    ghost Value = { List ℕ };

    ghost view = { λ a. form_bytes a.form };
}

// The form of a text for which it takes no `String`, if there is one.
fn form_without_string(alloc: Global, text: &str) -> Result<Option<Form>, AllocError>
    ensures { IfOk result (λ found. IfSome found (λ form. form_bytes form ≡ text.now)) }
{
    if let Some(short) = InlineText::new(text) {
        return Ok(Some(Form::Short(short)));
    }
    match InlineText::new(text) {
        Some(middle) => Ok(Some(Form::Middle(Box::new(alloc, middle)?))),
        None => Ok(None),
    }
}

impl Text {
    /// A text of no bytes. Takes no memory.
    pub fn empty() -> Text
        ensures { result ≡ [] }
    {
        Text {
            form: Form::Short(InlineText::empty()),
        }
    }

    /// Makes a text of a `String`. Takes memory where it is longer than 22 bytes.
    pub fn from_string(text: String) -> Result<Text, AllocError>
        ensures { IfOk result (λ t. t ≡ string_bytes text) }
    {
        let alloc = *text.allocator();
        let form = match form_without_string(alloc, text.as_str())? {
            Some(form) => form,
            None => Form::Long(Box::new(alloc, text)?),
        };
        Ok(Text { form })
    }

    /// Copies a `str`. Takes memory where it is longer than 22 bytes.
    pub fn from_str(alloc: Global, text: &str) -> Result<Text, AllocError>
        ensures { IfOk result (λ t. t ≡ text.now) }
    {
        let form = match form_without_string(alloc, text)? {
            Some(form) => form,
            None => Form::Long(Box::new(alloc, String::from_str(alloc, text)?)?),
        };
        Ok(Text { form })
    }

    /// Takes no memory.
    pub fn as_str(&self) -> &str
        ensures { result.now ≡ self.now }
    {
        match &self.form {
            Form::Short(text) => text.as_str(),
            Form::Middle(text) => text.as_str(),
            Form::Long(text) => text.as_str(),
        }
    }

    /// Gives an equal text. Takes memory where it is longer than 22 bytes.
    pub fn copy(&self) -> Result<Text, AllocError>
        ensures { IfOk result (λ t. t ≡ self.now) }
    {
        let form = match &self.form {
            Form::Short(text) => Form::Short(text.copy()),
            Form::Middle(text) => Form::Middle(Box::new(*Box::allocator(text), text.copy())?),
            Form::Long(text) => Form::Long(text.clone()?),
        };
        Ok(Text { form })
    }
}
