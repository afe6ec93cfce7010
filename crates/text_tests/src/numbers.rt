//! Numbers, each of which comes once.
ghost use Rattle.std.specs.Prelude.{◌≡◌, ◌==◌, ℕ, List, [], false, IfSome, IfNone, OnOk};
ghost use Rattle.std.specs.Bool.{Decides};
ghost use Rattle.std.specs.List.{list_any};
ghost use Rattle.record_lines.specs.Lines.{CanBeSpelled, IsLineAdded};
ghost use Rattle.text_tests.specs.Kinds.{AreKeptNumbers, SpellsDigits, has_record_number, one_digits};

use record_lines::{Keeper, LineRecord};
use std::alloc::{AllocError, Global};
use std::collections::BTreeSet;

/// A number, which is eight hexadecimal digits in a line.
#[derive(Clone, Copy, Debug, PartialEq, Eq)]
pub struct Number {
    pub number: u32,
}

impl LineRecord for Number {
    ghost spells = { SpellsDigits };

    ghost spells_one = { one_digits };

    fn read(line: &[u8]) -> Option<Self> {
        if line.len() != 8 {
            return None;
        }
        let number = text_reader::read_hex(line)?;
        Some(Number {
            number: number as u32,
        })
    }

    fn write(&self, text: &mut Vec<u8>) -> Result<(), AllocError> {
        let mut digits = [0; 8];
        text_reader::write_hex(&mut digits, self.number as u64);
        text.extend_from_slice(&digits)?;
        Ok(())
    }
}

/// The numbers that came.
#[derive(Drop)]
pub struct Distinct {
    numbers: BTreeSet<u32>,
}

impl Distinct {
    /// No number.
    pub fn new(alloc: Global) -> Distinct
        ensures { AreKeptNumbers [] result.numbers }
    {
        Distinct {
            numbers: BTreeSet::new(alloc),
        }
    }
}

impl Keeper<Number> for Distinct {
    ghost tells = { λ before kept. AreKeptNumbers before kept.numbers };

    ghost legal = { λ before next. has_record_number next.number before ≡ false };

    fn allows(&self, next: &Number) -> bool {
        !self.numbers.contains(&next.number)
    }

    fn add(&mut self, next: &Number) -> Result<(), AllocError> {
        self.numbers.insert(next.number)?;
        Ok(())
    }
}
