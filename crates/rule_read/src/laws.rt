//! Laws of rules that are read, the contracts of functions that do nothing.
ghost use Rattle.std.specs.Prelude.{◌≡◌, ℤ, Some, is_some, true};
ghost use Rattle.spec_json.specs.Data.{Data};
ghost use Rattle.spec_series.specs.declared.rule.Rule.{Rule};
ghost use Rattle.spec_series.specs.RuleObjects.{RuleParts, parts_of, rule_data, rule_in};
ghost use Rattle.spec_recurrence.specs.RulesOf.{rule_by_parts};

/// A rule that was read for a series whose start's day is n, and written, is read back for that day.
pub fn written_rules_are_read()
    ensures { (r : Rule) (n : ℤ) (d : Data) → rule_in n d ≡ Some (parts_of r) → rule_in n (rule_data (parts_of r)) ≡ Some (parts_of r) }
{}

/// A rule that is read for a series whose start's day is n keeps within the limits of a rule, so the series has it.
pub fn read_rules_are_meant()
    ensures { (n : ℤ) (d : Data) (p : RuleParts) → rule_in n d ≡ Some p → is_some (rule_by_parts p) ≡ true }
{}
