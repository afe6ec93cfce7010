//! Letters in the order of the alphabet.
ghost use Rattle.std.specs.Prelude.{◌≡◌, ◌<◌, ℕ, List, IfSome, IfNone, OnOk};
ghost use Rattle.std.specs.Bool.{Decides};
ghost use Rattle.record_lines.specs.Lines.{CanBeSpelled, IsLineAdded};
ghost use Rattle.text_tests.specs.Kinds.{MayFollow, SpellsLetter, last_of, one_letter};

use record_lines::{Keeper, LineRecord};
use std::alloc::AllocError;

/// A lower-case letter, which is a line.
#[derive(Clone, Copy, Debug, PartialEq, Eq)]
pub struct Letter {
    pub byte: u8,
}

impl LineRecord for Letter {
    ghost spells = { SpellsLetter };

    ghost spells_one = { one_letter };

    fn read(line: &[u8]) -> Option<Self> {
        match line {
            [byte @ b'a'..=b'z'] => Some(Letter { byte: *byte }),
            _ => None,
        }
    }

    fn write(&self, text: &mut Vec<u8>) -> Result<(), AllocError> {
        text.push(self.byte)?;
        Ok(())
    }
}

/// The letter that came last; the next one comes after it in the alphabet.
#[derive(Clone, Copy, Default)]
pub struct Rising {
    last: Option<u8>,
}

impl Keeper<Letter> for Rising {
    ghost tells = { λ before kept. kept.last ≡ last_of before };

    ghost legal = { λ before next. MayFollow (last_of before) next.byte };

    fn allows(&self, next: &Letter) -> bool {
        match self.last {
            Some(last) => last < next.byte,
            None => true,
        }
    }

    fn add(&mut self, next: &Letter) -> Result<(), AllocError> {
        self.last = Some(next.byte);
        Ok(())
    }
}
