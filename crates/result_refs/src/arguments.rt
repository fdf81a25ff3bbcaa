//! Arguments with the values of their references.
ghost use Rattle.std.specs.Prelude.{◌≡◌, ◌≤◌, IfErr, IfOk, IfSome, Some, length, option_map};
ghost use Rattle.json_edge.specs.Lengths.{saturated};
ghost use Rattle.spec_json.specs.Json.{text_of};
ghost use Rattle.spec_json.specs.Parts.{all_some};
ghost use Rattle.spec_batch.specs.References.{resolution, resolved, size_of_values, value_of_reference};
ghost use Rattle.spec_batch.specs.declared.limits.TheConstants.{MAX_REFERRED_BYTES};
ghost use Rattle.spec_json.specs.TreeData.{data_of};
ghost use Rattle.result_refs.specs.Parted.{plain_in, references_in, with_value};
ghost use Rattle.result_refs.specs.Reports.{Reports, ReportsNone};
ghost use Rattle.result_refs.specs.Sizes.{size_in, values_in};
ghost use Rattle.result_refs.specs.declared.arguments.ReferenceError.TheVariants.{NoMemory};

use crate::behind_sign::behind;
use crate::forms::{has_both_forms, has_too_many};
use crate::reference::target_of;
use spec_batch::limits::MAX_REFERRED_BYTES;
use spec_batch::method_response::MethodResponse;
use spec_json::text::Text;
use spec_json::tree::{Member, Tree, TreeObject};
use std::alloc::{AllocError, AllocFailed, Global};

/// Why there are no arguments with the values of their references.
#[derive(Clone, Copy, Debug, PartialEq, Eq)]
pub enum ReferenceError {
    /// More than `MAX_REFERENCES` arguments are references.
    TooMany,
    /// An argument is given both as a value and as a reference.
    BothForms,
    /// A reference has no value.
    BadReference,
    /// The values of the references have more than `MAX_REFERRED_BYTES` bytes.
    TooLarge {
        /// The bytes of their compact texts, or the last value of a u64 where there are more.
        size: u64,
    },
    /// Out of memory.
    NoMemory,
}

impl From<AllocError> for ReferenceError {
    ghost from_gives = { λ _ error. error ≡ NoMemory };

    fn from(_: AllocError) -> Self {
        ReferenceError::NoMemory
    }
}

impl<T: Drop> From<AllocFailed<T>> for ReferenceError {
    ghost from_gives = { λ _ error. error ≡ NoMemory };

    fn from(_: AllocFailed<T>) -> Self {
        ReferenceError::NoMemory
    }
}

/// The arguments of a call with the value of each reference in its place (RFC 8620 section 3.7).
///
/// An argument whose name begins with `#` is a reference for the argument of the name behind it. `responses` are those to
/// the earlier calls of the request, in order. TooMany comes where more than `MAX_REFERENCES` arguments are references, before
/// any response is looked at, and else BothForms where an argument is given in both forms, and else BadReference where a reference
/// has no value, and else TooLarge where the compact texts of all these values together have more than `MAX_REFERRED_BYTES` bytes.
/// They are added up before anything is copied. Plain arguments are moved; memory is taken for the values of references and for
/// lists of the arguments.
pub fn resolve(
    alloc: Global,
    arguments: TreeObject,
    responses: &[MethodResponse],
) -> Result<TreeObject, ReferenceError>
    ensures ok { IfOk result (λ o. resolution responses.now arguments ≡ resolved o) }
    ensures err { IfErr result (λ error. Reports error (resolution responses.now arguments)) }
{
    if has_too_many(&arguments) {
        return Err(ReferenceError::TooMany);
    }
    if has_both_forms(&arguments) {
        return Err(ReferenceError::BothForms);
    }
    let size = size_of_references(alloc, &arguments, responses)?;
    if size > MAX_REFERRED_BYTES {
        return Err(ReferenceError::TooLarge { size });
    }
    let parted = take_apart(alloc, arguments)?;
    let values = values_of(alloc, parted.references, responses)?;
    Ok(parted.plain.with_all(alloc, values)?)
}

// The bytes of the compact texts of the values of all references. Takes memory for the paths alone, one at a time.
fn size_of_references(
    alloc: Global,
    arguments: &TreeObject,
    responses: &[MethodResponse],
) -> Result<u64, ReferenceError>
    ensures ok { IfOk result (λ size. size_in responses.now arguments.now ≡ Some size) }
    ensures err { IfErr result (λ error. ReportsNone error (values_in responses.now arguments.now)) }
{
    let mut size: u64 = 0;
    for member in arguments.members() {
        if behind(member.key.as_str(), '#').is_some() {
            size = size.saturating_add(size_of_reference(alloc, &member.value, responses)?);
        }
    }
    Ok(size)
}

fn size_of_reference(
    alloc: Global,
    reference: &Tree,
    responses: &[MethodResponse],
) -> Result<u64, ReferenceError>
    ensures ok { IfOk result (λ size. option_map (λ d. saturated (length (text_of d))) (value_of_reference responses.now (data_of reference.now)) ≡ Some size) }
    ensures err { IfErr result (λ error. ReportsNone error (value_of_reference responses.now (data_of reference.now))) }
{
    let Some(target) = target_of(alloc, reference, responses)? else {
        return Err(ReferenceError::BadReference);
    };
    match target.size() {
        Some(size) => Ok(size.of_a_text()),
        None => Err(ReferenceError::BadReference),
    }
}

// The arguments of a call, taken apart.
#[derive(Drop)]
struct Parted {
    // Those that are no references.
    plain: TreeObject,
    // The references, each with the name behind the `#`.
    references: TreeObject,
}

fn take_apart(alloc: Global, arguments: TreeObject) -> Result<Parted, AllocError>
    ensures plain { IfOk result (λ parted. parted.plain ≡ plain_in arguments) }
    ensures references { IfOk result (λ parted. parted.references ≡ references_in arguments) }
{
    let mut plain = Vec::new(alloc);
    let mut references = Vec::new(alloc);
    for Member { key, value } in arguments.into_members() {
        match behind(key.as_str(), '#') {
            None => plain.push(Member { key, value })?,
            Some(name) => {
                let key = Text::from_str(alloc, name)?;
                references.push(Member { key, value })?;
            }
        }
    }
    Ok(Parted {
        plain: TreeObject::new(plain),
        references: TreeObject::new(references),
    })
}

// Copies of the values of the references, each at its name, where these aren't too large.
fn values_of(
    alloc: Global,
    references: TreeObject,
    responses: &[MethodResponse],
) -> Result<TreeObject, ReferenceError>
    requires { IfSome (all_some (λ p. with_value responses.now p) references) (λ vs. size_of_values vs ≤ MAX_REFERRED_BYTES) }
    ensures ok { IfOk result (λ o. all_some (λ p. with_value responses.now p) references ≡ Some o) }
    ensures err { IfErr result (λ error. ReportsNone error (all_some (λ p. with_value responses.now p) references)) }
{
    let mut values = Vec::new(alloc);
    for Member { key, value } in references.into_members() {
        let value = value_of(alloc, &value, responses)?;
        values.push(Member { key, value })?;
    }
    Ok(TreeObject::new(values))
}

fn value_of(
    alloc: Global,
    reference: &Tree,
    responses: &[MethodResponse],
) -> Result<Tree, ReferenceError>
    ensures ok { IfOk result (λ t. value_of_reference responses.now (data_of reference.now) ≡ Some (data_of t)) }
    ensures err { IfErr result (λ error. ReportsNone error (value_of_reference responses.now (data_of reference.now))) }
{
    let Some(target) = target_of(alloc, reference, responses)? else {
        return Err(ReferenceError::BadReference);
    };
    match target.value(alloc)? {
        Some(value) => Ok(value),
        None => Err(ReferenceError::BadReference),
    }
}
