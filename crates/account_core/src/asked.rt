//! The names of the properties that a get asks for.
ghost use Rattle.std.specs.Prelude.{◌≡◌, ◌||◌, IfOk, List, OnOk, ℕ};
ghost use Rattle.std.specs.BTreeSet.{contains_text};
ghost use Rattle.std.specs.Str.{bytes_eq};
ghost use Rattle.account_core.specs.AskedNames.{asks_by_name};
ghost use Rattle.cal_model.specs.Gets.{is_asked_for};
ghost use Rattle.spec_json.specs.Data.{Data};
ghost use Rattle.property_table.specs.Names.{has_name};

use object_outcomes::texts::copies;
use spec_json::lists::Texts;
use spec_json::text::Text;
use std::alloc::{AllocError, Global};
use std::collections::BTreeSet;
use std::marker::Model;

/// The names of the properties that a get asks for. Contracts see the names, `None` for all properties.
#[derive(Drop)]
pub struct Asked {
    names: Option<Texts>,
    // in order, since clients choose the names and could make the hashes of many equal
    by_name: BTreeSet<String>,
}

impl Model for Asked {
    ghost use Rattle.std.specs.Prelude.{◌≡◌, List, Option, ℕ};
    ghost use Rattle.std.specs.BTreeSet.{contains_text};
    ghost use Rattle.account_core.specs.AskedNames.{asks_by_name};

    ghost Value = { Option (List (List ℕ)) };

    ghost view = { λ a. a.names };

    ghost invariant = { λ a. (name : List ℕ) → contains_text a.by_name name ≡ asks_by_name a.names name };
}

impl Asked {
    /// The names of these properties. Takes memory for two copies of each.
    pub fn of(alloc: Global, properties: &Option<Texts>) -> Result<Asked, AllocError>
        ensures { IfOk result (λ asked. asked ≡ properties.now) }
    {
        match properties {
            Some(names) => Ok(Asked {
                names: Some(Texts::new(copies(alloc, names.items())?)),
                by_name: set_of(alloc, names.items())?,
            }),
            None => Ok(Asked {
                names: None,
                by_name: BTreeSet::new(alloc),
            }),
        }
    }

    /// Whether a property of this name is asked for, as `id` always is. Takes no memory.
    pub fn has(&self, name: &str) -> bool
        ensures { (d : Data) → result ≡ is_asked_for self.now (name.now, d) }
    {
        match &self.names {
            Some(_) => name == "id" || self.is_named(name),
            None => true,
        }
    }

    // Whether the name is one of those that are asked for one by one.
    fn is_named(&self, name: &str) -> bool
        ensures { result ≡ asks_by_name self.now name.now }
    {
        self.by_name.contains(name)
    }
}

fn set_of(alloc: Global, names: &[Text]) -> Result<BTreeSet<String>, AllocError>
    ensures { IfOk result (λ set. (name : List ℕ) → contains_text set name ≡ has_name names.now name) }
{
    let mut set = BTreeSet::new(alloc);
    for name in names {
        put(alloc, &mut set, name)?;
    }
    Ok(set)
}

fn put(alloc: Global, set: &mut BTreeSet<String>, name: &Text) -> Result<(), AllocError>
    ensures { OnOk result ((other : List ℕ) → contains_text set.new other ≡ (bytes_eq name.now other || contains_text set.old other)) }
{
    set.insert(String::from_str(alloc, name.as_str())?)?;
    Ok(())
}
