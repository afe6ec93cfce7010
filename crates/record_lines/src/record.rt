//! A record and its line.
ghost use Rattle.std.specs.Prelude.{◌≡◌, ℕ, List, IfSome, IfNone, OnOk};
ghost use Rattle.record_lines.specs.Lines.{CanBeSpelled, IsLineAdded};

use std::alloc::AllocError;

/// A record that is in a line of its own.
pub trait LineRecord: Copy {
    /// The line, without its newline, spells the record.
    ghost spells: { List ℕ → Self → Type 0 };

    /// The record that a line without its newline spells, if it spells one.
    fn read(line: &[u8]) -> Option<Self>
        ensures some { IfSome result (spells line.now) }
        ensures none { IfNone result ((one : Self) → ¬ (spells line.now one)) };

    /// Adds the record's line, without its newline, to the text. Where memory runs out, a part of it
    /// may be there.
    fn write(&self, text: &mut Vec<u8>) -> Result<(), AllocError>
        requires { CanBeSpelled spells self.now }
        ensures { OnOk result (IsLineAdded spells self.now text.old.items text.new.items) };

    /// A line spells one record at most.
    ghost spells_one: { (line : List ℕ) (first second : Self) → spells line first → spells line second → first ≡ second };
}
