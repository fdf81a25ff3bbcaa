//! A time zone.
ghost use Rattle.std.specs.Prelude.{◌≡◌, IfOk, IsSome, Some};
ghost use Rattle.std.specs.Option.{SomeIff};
ghost use Rattle.jiff_tz.specs.PosixReader.{read_whole};
ghost use Rattle.jiff_tz.specs.PosixText.{tz_view};

use jiff_tz::posix::TimeZone;
use spec_json::text::Text;
use std::alloc::AllocError;
use std::marker::Model;

/// A time zone of a configuration. Contracts see its name and the text of its rule.
#[derive(Drop)]
pub struct Zone {
    name: Text,
    rule_text: Text,
    rule: TimeZone,
}

impl Model for Zone {
    ghost use Rattle.std.specs.Prelude.{◌≡◌, List, ℕ, Some};
    ghost use Rattle.jiff_tz.specs.PosixReader.{read_whole};
    ghost use Rattle.jiff_tz.specs.PosixText.{tz_view};

    ghost Value = { List ℕ × List ℕ };

    ghost view = { λ a. (a.name, a.rule_text) };

    ghost invariant = { λ a. read_whole a.rule_text ≡ Some (tz_view a.rule) };
}

impl Zone {
    /// The zone of a name and a rule, none where `jiff` refuses the rule. Takes memory for a copy of both.
    pub(crate) fn read(name: &Text, rule_text: &Text) -> Result<Option<Zone>, AllocError>
        ensures { IfOk result (λ zone. SomeIff zone (IsSome (read_whole rule_text.now)) (name.now, rule_text.now)) }
    {
        let Ok(rule) = TimeZone::parse(rule_text.as_str().as_bytes()) else {
            return Ok(None);
        };
        Ok(Some(Zone {
            name: name.copy()?,
            rule_text: rule_text.copy()?,
            rule,
        }))
    }

    /// The zone's name. Takes no memory.
    pub fn name(&self) -> &Text
        ensures { result.now ≡ self.now.0 }
    {
        &self.name
    }

    /// The text of the zone's rule, as the configuration has it. Takes no memory.
    pub fn rule_text(&self) -> &Text
        ensures { result.now ≡ self.now.1 }
    {
        &self.rule_text
    }

    /// What `jiff` reads the text of the rule as. Takes no memory.
    pub fn rule(&self) -> &TimeZone
        ensures { read_whole self.now.1 ≡ Some (tz_view result.now) }
    {
        &self.rule
    }
}
