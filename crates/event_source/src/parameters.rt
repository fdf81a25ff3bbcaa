//! The parameters of a query.
ghost use Rattle.std.specs.Prelude.{◌≡◌, ◌==◌, Err, IfErr, IfOk, Ok};
ghost use Rattle.std.specs.List.{slice_split};
ghost use Rattle.std.specs.Str.Lossy.{utf8_lossy};
ghost use Rattle.form_urlencoded.specs.Form.{decode};
ghost use Rattle.spec_sockets.specs.Switches.{is_among};
ghost use Rattle.event_source.specs.StreamQueries.{only_value, parameters_of, values_called};

use crate::query::Flaw;
use form_urlencoded::{decode, raw_pairs};
use spec_json::text::Text;
use std::alloc::{AllocError, Global};
use std::marker::Model;

/// A parameter of a query, decoded. Contracts see its name and its value.
#[derive(Drop)]
pub(crate) struct Parameter {
    name: Text,
    value: Text,
}

impl Model for Parameter {
    ghost use Rattle.std.specs.Prelude.{List, ℕ};

    ghost Value = { List ℕ × List ℕ };

    ghost view = { λ p. (p.name, p.value) };
}

/// The parameters of a query, in order. Takes memory for them.
pub(crate) fn parameters_of(alloc: Global, query: &[u8]) -> Result<Vec<Parameter>, AllocError>
    ensures { IfOk result (λ parameters. parameters.items ≡ parameters_of query.now) }
{
    let mut parameters = Vec::new(alloc);
    for (name, value) in raw_pairs(query) {
        let name = decoded(alloc, name)?;
        let value = decoded(alloc, value)?;
        parameters.push(Parameter { name, value })?;
    }
    Ok(parameters)
}

// The text that bytes of a query stand for.
fn decoded(alloc: Global, bytes: &[u8]) -> Result<Text, AllocError>
    ensures { IfOk result (λ text. text ≡ utf8_lossy (decode bytes.now)) }
{
    let text = decode(alloc, bytes)?;
    Text::from_str(alloc, text.as_str())
}

/// The value of the parameter of a name, where there is just one. Takes no memory.
pub(crate) fn only_value<'a>(parameters: &'a [Parameter], name: &str) -> Result<&'a str, Flaw>
    ensures ok { IfOk result (λ value. only_value (values_called name.now parameters.now) ≡ Ok value.now) }
    ensures err { IfErr result (λ flaw. only_value (values_called name.now parameters.now) ≡ Err flaw) }
{
    let mut found = None;
    for parameter in parameters {
        if parameter.name.as_str() == name {
            if found.is_some() {
                return Err(Flaw::Repeated);
            }
            found = Some(parameter.value.as_str());
        }
    }
    match found {
        Some(value) => Ok(value),
        None => Err(Flaw::Missing),
    }
}

/// Whether a name stands among those between the commas of a text. Takes no memory.
pub(crate) fn has_name(names: &str, name: &str) -> bool
    ensures { result ≡ is_among (slice_split (λ b. b == 44) names.now) name.now }
{
    names.split(',').any(|other| other == name)
}
