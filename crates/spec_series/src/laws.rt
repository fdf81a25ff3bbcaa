//! Laws of the definitions.
ghost use Rattle.std.specs.Prelude.{◌≡◌, ◌↔◌, ℤ};
ghost use Rattle.spec_series.specs.FirstEdition.{is_in_first_set, IsOfFirstEdition};
ghost use Rattle.spec_series.specs.Occurrences.{IsOccurrence, IsOfKinds};
ghost use Rattle.spec_series.specs.RuleSets.{is_in_set};
ghost use Rattle.spec_series.specs.declared.occurrence.Occurrence.{Occurrence};
ghost use Rattle.spec_series.specs.declared.rule.Rule.{Rule};
ghost use Rattle.spec_series.specs.declared.series.Series.{Series};

/// The occurrences of a series are those of its rules that no exception names, and those that exceptions give.
pub fn occurrences_are_of_two_kinds()
    ensures { (s : Series) (o : Occurrence) → IsOccurrence s o ↔ IsOfKinds s o }
{}

/// The days of a rule without `byYearDay` and with the `skip` `omit` are those of the first edition, which knew neither.
pub fn rules_keep_their_meaning()
    ensures { (r : Rule) → IsOfFirstEdition r → (start n : ℤ) → is_in_set r start n ≡ is_in_first_set r start n }
{}
