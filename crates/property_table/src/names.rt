//! Lists of names in byte order.
ghost use Rattle.std.specs.Prelude.{◌≡◌, OnOk, map};
ghost use Rattle.std.specs.Cmp.Lexicographic.{slice_cmp};
ghost use Rattle.std.specs.Ordering.{nat_cmp, is_lt};
ghost use Rattle.property_table.specs.Names.{has_name, put_name};

use spec_json::text::Text;
use std::alloc::AllocError;
use std::cmp::Ordering;

/// Puts a name into a list in byte order, where it isn't there yet. Takes memory for its place.
pub fn put_name(names: &mut Vec<Text>, name: Text) -> Result<(), AllocError>
    ensures { OnOk result (names.new.items ≡ put_name name names.old.items) }
{
    let mut i = 0;
    while i < names.len() && is_below(names[i].as_str(), name.as_str()) {
        i += 1;
    }
    if i < names.len() && names[i].as_str() == name.as_str() {
        return Ok(());
    }
    names.insert(i, name)?;
    Ok(())
}

fn is_below(one: &str, two: &str) -> bool
    ensures { result ≡ is_lt (slice_cmp nat_cmp one.now two.now) }
{
    one.cmp(two) == Ordering::Less
}

/// Whether a name is one of these. Takes no memory.
pub fn has_name(names: &[&str], name: &str) -> bool
    ensures { result ≡ has_name (map (λ n. n.now) names.now) name.now }
{
    for one in names {
        if *one == name {
            return true;
        }
    }
    false
}
