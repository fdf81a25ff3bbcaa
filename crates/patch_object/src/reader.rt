//! Reads the parts of a key, a character at a time.
ghost use Rattle.std.specs.Prelude.{◌≡◌, ◌<◌, ◌∷◌, [], IfOk, IfSome, OnOk, List, ℕ, length, option_map};
ghost use Rattle.patch_object.specs.Reading.{read_on};
ghost use Rattle.spec_json.specs.Pointer.{parts_from};

use spec_json::text::Text;
use std::alloc::{AllocError, Global};

/// What was read of a key.
#[derive(Drop)]
pub(crate) struct Reader {
    /// The parts that a `/` ended.
    ended: Vec<Text>,
    /// What was read since.
    part: String,
    escape: Escape,
}

/// Where a reader stands among the escapes of a part.
#[derive(Clone, Copy, Drop)]
pub(crate) enum Escape {
    /// Behind whole ones.
    Whole,
    /// Behind a `~`.
    Begun,
    /// Behind one that is none.
    Bad,
}

impl Reader {
    pub(crate) fn new(alloc: Global) -> Reader
        ensures { (cs : List ℕ) → read_on result cs ≡ parts_from [] cs }
    {
        Reader {
            ended: Vec::new(alloc),
            part: String::new(alloc),
            escape: Escape::Whole,
        }
    }

    /// Reads one more character.
    pub(crate) fn read(&mut self, alloc: Global, c: char) -> Result<(), AllocError>
        ensures { OnOk result ((cs : List ℕ) → read_on self.new cs ≡ read_on self.old (c ∷ cs)) }
    {
        match self.escape {
            Escape::Whole => self.read_plain(alloc, c),
            Escape::Begun => self.read_escaped(c),
            Escape::Bad => Ok(()),
        }
    }

    fn read_plain(&mut self, alloc: Global, c: char) -> Result<(), AllocError>
        requires { self.old.escape ≡ Escape.Whole }
        ensures { OnOk result ((cs : List ℕ) → read_on self.new cs ≡ read_on self.old (c ∷ cs)) }
    {
        match c {
            '/' => {
                let part = std::mem::replace(&mut self.part, String::new(alloc));
                self.ended.push(Text::from_string(part)?)?;
            }
            '~' => self.escape = Escape::Begun,
            c => self.part.push(c)?,
        }
        Ok(())
    }

    fn read_escaped(&mut self, c: char) -> Result<(), AllocError>
        requires { self.old.escape ≡ Escape.Begun }
        ensures { OnOk result ((cs : List ℕ) → read_on self.new cs ≡ read_on self.old (c ∷ cs)) }
    {
        match c {
            '0' => {
                self.part.push('~')?;
                self.escape = Escape::Whole;
            }
            '1' => {
                self.part.push('/')?;
                self.escape = Escape::Whole;
            }
            _ => self.escape = Escape::Bad,
        }
        Ok(())
    }

    /// The parts, where each escape is whole.
    pub(crate) fn finish(self) -> Result<Option<Vec<Text>>, AllocError>
        ensures parts { IfOk result (λ parts. option_map (λ v. v.items) parts ≡ read_on self []) }
        ensures some { IfOk result (λ parts. IfSome parts (λ v. 0 < length v.items)) }
    {
        match self.escape {
            Escape::Whole => {
                let last = Text::from_string(self.part)?;
                let mut parts = self.ended;
                parts.push(last)?;
                Ok(Some(parts))
            }
            _ => Ok(None),
        }
    }
}
