//! Pointers among which the prefixes of another are found.
ghost use Rattle.std.specs.Prelude.{◌≡◌, ◌||◌, IfOk, List, OnOk, [], false, map, string_bytes, ℕ};
ghost use Rattle.std.specs.List.{list_any};
ghost use Rattle.spec_json.specs.Patch.{is_prefix};
ghost use Rattle.patch_object.specs.Paths.{has_path, string_parts};

use crate::pointer::Pointer;
use spec_json::text::Text;
use std::alloc::{AllocError, Global};
use std::collections::BTreeSet;
use std::marker::Model;

/// A set of pointers. Contracts see their parts.
#[derive(Drop)]
pub(crate) struct PointerSet {
    paths: BTreeSet<Vec<String>>,
}

impl Model for PointerSet {
    ghost use Rattle.std.specs.Prelude.{◌≡◌, [], List, false, map, ℕ};
    ghost use Rattle.std.specs.List.{list_any};
    ghost use Rattle.spec_json.specs.Patch.{is_prefix};
    ghost use Rattle.patch_object.specs.Paths.{string_parts};

    ghost Value = { List (List (List ℕ)) };

    ghost view = { λ a. map string_parts a.paths.keys };

    // no pointer has no parts
    ghost invariant = { λ a. list_any (λ e. is_prefix e []) (map string_parts a.paths.keys) ≡ false };
}

impl PointerSet {
    /// Has no pointers. Takes no memory.
    pub(crate) fn new(alloc: Global) -> PointerSet
        ensures { result ≡ [] }
    {
        PointerSet {
            paths: BTreeSet::new(alloc),
        }
    }

    /// Adds a pointer, and tells whether one that was there before is a prefix of it. Takes memory for a copy of its parts.
    pub(crate) fn add(&mut self, alloc: Global, pointer: &Pointer) -> Result<bool, AllocError>
        ensures told { IfOk result (λ b. b ≡ list_any (λ e. is_prefix e pointer.now) self.old) }
        ensures added { OnOk result ((ps : List (List ℕ)) → list_any (λ e. is_prefix e ps) self.new ≡ (is_prefix pointer.now ps || list_any (λ e. is_prefix e ps) self.old)) }
    {
        let path = strings(alloc, pointer.parts())?;
        let has_shorter = has_shorter_prefix(&self.paths, &path);
        let is_new = self.paths.insert(path)?;
        Ok(has_shorter || !is_new)
    }
}

// Whether a path that is there has the first parts of this one and no others. Whether this one is there is told by what adds it.
fn has_shorter_prefix(paths: &BTreeSet<Vec<String>>, path: &[String]) -> bool
    requires { list_any (λ e. is_prefix e []) (map string_parts paths.now.keys) ≡ false }
    ensures { (result || has_path path.now paths.now.keys) ≡ list_any (λ e. is_prefix e (map string_bytes path.now)) (map string_parts paths.now.keys) }
{
    for end in 1..path.len() {
        if paths.contains(&path[..end]) {
            return true;
        }
    }
    false
}

fn strings(alloc: Global, parts: &[Text]) -> Result<Vec<String>, AllocError>
    ensures { IfOk result (λ v. string_parts v ≡ parts.now) }
{
    let mut strings = Vec::with_capacity(alloc, parts.len())?;
    for part in parts {
        strings.push(String::from_str(alloc, part.as_str())?)?;
    }
    Ok(strings)
}
