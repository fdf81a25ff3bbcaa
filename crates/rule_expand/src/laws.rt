//! The law of rules, the contract of a function that does nothing.
ghost use Rattle.std.specs.Prelude.{◌≡◌, ℤ};
ghost use Rattle.spec_time.specs.CivilDay.{cycles_later};
ghost use Rattle.spec_series.specs.RuleSets.{day_matches, is_kept, is_moved};
ghost use Rattle.spec_series.specs.declared.rule.Rule.{Rule};

/// A rule matches, keeps and moves to the same days any number of cycles of 400 years later, or earlier.
pub fn rules_repeat()
    ensures matches { (r : Rule) (n q : ℤ) → day_matches r (cycles_later n q) ≡ day_matches r n }
    ensures moves { (r : Rule) (n q : ℤ) → is_moved r (cycles_later n q) ≡ is_moved r n }
    ensures keeps { (r : Rule) (n q : ℤ) → is_kept r (cycles_later n q) ≡ is_kept r n }
{}
