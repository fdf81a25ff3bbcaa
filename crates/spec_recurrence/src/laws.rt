//! Laws of the definitions.
ghost use Rattle.std.specs.Prelude.{◌≡◌, ◌<◌, ◌^◌, Some, true, ℕ, ℤ};
ghost use Rattle.spec_recurrence.specs.OccurrenceIds.{IsIdReadBack};
ghost use Rattle.spec_recurrence.specs.RulesOf.{rule_by_parts};
ghost use Rattle.spec_series.specs.RuleObjects.{RuleParts, parts_of};
ghost use Rattle.spec_recurrence.specs.SeriesOf.{SeriesParts, series_by_parts, series_parts};
ghost use Rattle.spec_series.specs.declared.rule.Rule.{Rule};
ghost use Rattle.spec_series.specs.declared.series.Series.{Series};
ghost use Rattle.spec_time.specs.Walls.{is_in_years};

/// What is made of parts is the rule that has them, and each rule is made of its parts: so there is none exactly where no rule has them.
pub fn rules_are_their_parts()
    ensures parts { (p : RuleParts) (r : Rule) → rule_by_parts p ≡ Some r → parts_of r ≡ p }
    ensures one { (r : Rule) → rule_by_parts (parts_of r) ≡ Some r }
{}

/// The same of series.
pub fn series_are_their_parts()
    ensures parts { (p : SeriesParts) (s : Series) → series_by_parts p ≡ Some s → series_parts s ≡ p }
    ensures one { (s : Series) → series_by_parts (series_parts s) ≡ Some s }
{}

/// A synthetic id in the years 0 to 9999 that was written is read back.
pub fn written_occurrence_ids_are_read()
    ensures { (n : ℕ) (w : ℤ) → 0 < n → n < 2 ^ 64 → is_in_years w ≡ true → IsIdReadBack n w }
{}
