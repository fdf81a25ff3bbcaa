//! What references name.
ghost use Rattle.std.specs.Prelude.{◌≡◌, IfOk, option_and_then, option_map};
ghost use Rattle.std.specs.List.{find};
ghost use Rattle.std.specs.Str.{bytes_eq};
ghost use Rattle.spec_batch.specs.References.{value_in_response, value_of_reference};
ghost use Rattle.spec_json.specs.Parts.{text_at};
ghost use Rattle.spec_json.specs.TreeData.{data_of};
ghost use Rattle.result_refs.specs.Targets.{target_value};
ghost use Rattle.result_refs.specs.Sizes.{size_by_items};

use crate::path::Path;
use crate::size::{Size, size_by};
use crate::value::value_by;
use spec_batch::method_response::MethodResponse;
use spec_json::tree::Tree;
use std::alloc::{AllocError, Global};

/// The arguments of a response, and the path in them that a reference names.
#[derive(Drop)]
pub(crate) struct Target<'a> {
    arguments: &'a Tree,
    path: Path,
}

impl Target<'_> {
    /// The size of the value there. Takes no memory.
    pub(crate) fn size(&self) -> Option<Size>
        ensures { result ≡ option_map size_by_items (target_value self.now) }
    {
        size_by(self.path.parts(), 0, self.arguments)
    }

    /// A copy of the value there.
    pub(crate) fn value(&self, alloc: Global) -> Result<Option<Tree>, AllocError>
        ensures { IfOk result (λ o. option_map data_of o ≡ target_value self.now) }
    {
        value_by(alloc, self.path.parts(), 0, self.arguments)
    }
}

/// What a reference names, which is an object with the texts `resultOf`, `name` and `path` (RFC 8620 section 3.7).
///
/// It is in the first response whose call id is `resultOf`, where that has this name. Takes memory for the parts of the path.
#[tactic(auto, using(crate::proofs::ResponseLemmas::found_by_id))]
pub(crate) fn target_of<'a>(
    alloc: Global,
    reference: &Tree,
    responses: &'a [MethodResponse],
) -> Result<Option<Target<'a>>, AllocError>
    ensures { IfOk result (λ o. option_and_then target_value o ≡ value_of_reference responses.now (data_of reference.now)) }
{
    let result_of = text_at(reference, "resultOf");
    let name = text_at(reference, "name");
    let path = text_at(reference, "path");
    match (result_of, name, path) {
        (Some(result_of), Some(name), Some(path)) => {
            match response_with_id(responses, result_of) {
                Some(response) => target_in(alloc, name, path, response),
                None => Ok(None),
            }
        }
        _ => Ok(None),
    }
}

fn target_in<'a>(
    alloc: Global,
    name: &str,
    path: &str,
    response: &'a MethodResponse,
) -> Result<Option<Target<'a>>, AllocError>
    ensures { IfOk result (λ o. option_and_then target_value o ≡ value_in_response name.now path.now response.now) }
{
    if response.name.as_str() != name {
        return Ok(None);
    }
    match Path::read(alloc, path)? {
        Some(path) => Ok(Some(Target {
            arguments: &response.arguments,
            path,
        })),
        None => Ok(None),
    }
}

fn text_at<'a>(reference: &'a Tree, key: &str) -> Option<&'a str>
    ensures { option_map (λ s. s.now) result ≡ text_at key.now (data_of reference.now) }
{
    Some(reference.text_at(key)?.as_str())
}

// The first response to a call of this id.
fn response_with_id<'a>(
    responses: &'a [MethodResponse],
    call_id: &str,
) -> Option<&'a MethodResponse>
    ensures { option_map (λ r. r.now) result ≡ find (λ r. bytes_eq r.call_id call_id.now) responses.now }
{
    responses
        .iter()
        .find(|response| response.call_id.as_str() == call_id)
}
