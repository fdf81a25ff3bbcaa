//! What a get finds (RFC 8620 section 5.1).
ghost use Rattle.std.specs.Prelude.{◌≡◌, [], ◌∷◌, ◌++◌, Some, IfOk, OnOk, map, option_map};
ghost use Rattle.account_core.specs.Finds.{Finds, found_in, missing_in};
ghost use Rattle.account_store.specs.Store.{entries};
ghost use Rattle.cal_model.specs.CreatedIds.{object_with_id};
ghost use Rattle.cal_model.specs.Occurrences.{occurrence_named};
ghost use Rattle.cal_model.specs.Gets.{are_too_large, ids_not_found, object_or_occurrence, objects_asked, selected, size_of_objects};
ghost use Rattle.json_edge.specs.Lengths.{saturated};
ghost use Rattle.spec_history.specs.History.{changes_of};
ghost use Rattle.spec_json.specs.Parts.{some_of};
ghost use Rattle.spec_json.specs.TreeData.{data_of};

use crate::asked::Asked;
use crate::occurrences::occurrence_of_id;
use crate::properties::select;
use account_store::Store;
use cal_model::limits::MAX_GET_BYTES;
use json_edge::length::text_length;
use set_methods::asked_ids::asked_ids;
use spec_history::entry::Kind;
use spec_json::lists::Texts;
use spec_json::text::Text;
use spec_json::tree::Tree;
use std::alloc::{AllocError, Global};
use time_text::read_object_id;

/// What a get finds of the ids asked for.
#[derive(Drop)]
pub struct Found {
    /// The objects, each with the properties asked for.
    pub list: Vec<Tree>,
    /// The ids that name no object.
    pub missing: Vec<Text>,
}

/// The live object of an id. Takes no memory.
fn object_of_id<'a>(store: &'a Store, kind: Kind, id: &Text) -> Option<&'a Tree>
    ensures { option_map (λ t. t.now) result ≡ object_with_id (changes_of (entries store.now)) kind id.now }
{
    store.object(kind, read_object_id(kind, id.as_str().as_bytes())?)
}

// What an id names, where this is the occurrence that it names. Takes no memory.
fn object_or_occurrence<'a>(
    store: &'a Store,
    kind: Kind,
    id: &Text,
    occurrence: &'a Option<Tree>,
) -> Option<&'a Tree>
    requires { occurrence.now ≡ occurrence_named (changes_of (entries store.now)) kind id.now }
    ensures { option_map (λ t. t.now) result ≡ object_or_occurrence (changes_of (entries store.now)) kind id.now }
{
    match object_of_id(store, kind, id) {
        Some(object) => Some(object),
        None => occurrence.as_ref(),
    }
}

// What a get finds so far, and the bytes of the compact texts of its objects together, or the last value of a u64 where there are more.
#[derive(Drop)]
struct Listing {
    objects: Vec<Tree>,
    missing: Vec<Text>,
    bytes: u64,
    ghost counted: { bytes ≡ saturated (size_of_objects (map data_of objects.items)) },
}

impl Listing {
    // A list of nothing, with room for so many objects.
    fn new(alloc: Global, room: usize) -> Result<Listing, AllocError>
        ensures objects { IfOk result (λ listing. listing.objects.items ≡ []) }
        ensures missing { IfOk result (λ listing. listing.missing.items ≡ []) }
    {
        Ok(Listing {
            objects: Vec::with_capacity(alloc, room)?,
            missing: Vec::new(alloc),
            bytes: 0,
        })
    }

    // Puts in a copy of an object with those of its members alone that are asked for, and `id`.
    fn put(&mut self, alloc: Global, asked: &Asked, object: &Tree) -> Result<(), AllocError>
        ensures objects { OnOk result (map data_of self.new.objects.items ≡ map data_of self.old.objects.items ++ selected asked.now object.now ∷ []) }
        ensures missing { self.new.missing ≡ self.old.missing }
    {
        let object = select(alloc, asked, object)?;
        let bytes = text_length(&object);
        self.objects.push(object)?;
        self.bytes = self.bytes.saturating_add(bytes);
        Ok(())
    }

    // Whether these are more than a get of the kind may list. Takes no memory.
    fn is_too_large(&self, kind: Kind) -> bool
        ensures { result ≡ are_too_large kind (map data_of self.now.objects.items) }
    {
        match kind {
            Kind::Calendar => false,
            Kind::Event => self.bytes > MAX_GET_BYTES,
        }
    }

    // What was found, in whole. Takes no memory.
    fn found(self) -> Found
        ensures { result ≡ record { list = self.objects; missing = self.missing } }
    {
        Found {
            list: self.objects,
            missing: self.missing,
        }
    }
}

// Puts in the object of an id, or the id where it names none.
fn find_one(
    alloc: Global,
    store: &Store,
    kind: Kind,
    asked: &Asked,
    id: &Text,
    listing: &mut Listing,
) -> Result<(), AllocError>
    ensures objects { OnOk result (map data_of listing.new.objects.items ≡ map data_of listing.old.objects.items ++ map (selected asked.now) (some_of (object_or_occurrence (changes_of (entries store.now)) kind id.now))) }
    ensures missing { OnOk result (listing.new.missing.items ≡ listing.old.missing.items ++ missing_in (changes_of (entries store.now)) kind (id.now ∷ [])) }
{
    let occurrence = occurrence_of_id(alloc, store, kind, id)?;
    match object_or_occurrence(store, kind, id, &occurrence) {
        Some(object) => listing.put(alloc, asked, object),
        None => Ok(listing.missing.push(id.copy()?)?),
    }
}

/// What is found of these different ids, `None` where it is too large. It is looked at object by object, so that no more than one is copied beyond the limit.
fn find_each(
    alloc: Global,
    store: &Store,
    kind: Kind,
    asked: &Asked,
    ids: &[Text],
) -> Result<Option<Found>, AllocError>
    ensures { IfOk result (λ o. Finds kind (map (selected asked.now) (found_in (changes_of (entries store.now)) kind ids.now)) (missing_in (changes_of (entries store.now)) kind ids.now) o) }
{
    let mut listing = Listing::new(alloc, ids.len())?;
    for id in ids {
        find_one(alloc, store, kind, asked, id, &mut listing)?;
        if listing.is_too_large(kind) {
            return Ok(None);
        }
    }
    Ok(Some(listing.found()))
}

/// What is found of the objects of these ids, where `#key` stands for the created id of that key; `None` where it is too large.
pub fn find_ids(
    alloc: Global,
    store: &Store,
    kind: Kind,
    ids: &[Text],
    properties: &Option<Texts>,
    created: &[(Text, Text)],
) -> Result<Option<Found>, AllocError>
    ensures { IfOk result (λ o. Finds kind (map (selected properties.now) (objects_asked (changes_of (entries store.now)) kind created.now (Some ids.now)))
        (ids_not_found (changes_of (entries store.now)) kind created.now (Some ids.now)) o) }
{
    let ids = asked_ids(alloc, ids, created)?;
    let asked = Asked::of(alloc, properties)?;
    find_each(alloc, store, kind, &asked, &ids)
}

/// What is found where these are all objects, and all are asked for; `None` where it is too large.
pub fn find_all(
    alloc: Global,
    kind: Kind,
    objects: &[&Tree],
    properties: &Option<Texts>,
) -> Result<Option<Found>, AllocError>
    ensures { IfOk result (λ o. Finds kind (map (selected properties.now) (map (λ t. t.now) objects.now)) [] o) }
{
    let asked = Asked::of(alloc, properties)?;
    list_all(alloc, kind, objects, &asked)
}

fn list_all(
    alloc: Global,
    kind: Kind,
    objects: &[&Tree],
    asked: &Asked,
) -> Result<Option<Found>, AllocError>
    ensures { IfOk result (λ o. Finds kind (map (selected asked.now) (map (λ t. t.now) objects.now)) [] o) }
{
    let mut listing = Listing::new(alloc, objects.len())?;
    for object in objects {
        listing.put(alloc, asked, object)?;
        if listing.is_too_large(kind) {
            return Ok(None);
        }
    }
    Ok(Some(listing.found()))
}
