//! The laws of tables.
ghost use Rattle.std.specs.Prelude.{List};
ghost use Rattle.spec_json.specs.Data.{Pair};
ghost use Rattle.property_table.specs.Table.{NamesAllFailing, Table};

/// The names that fail are all those at which the value doesn't pass, and no others. They stand in byte order, each once.
pub fn failing_names_are_exact()
    ensures { (t : Table) (ps : List Pair) → NamesAllFailing t ps }
{}
