//! Files and their records.
ghost use Rattle.std.specs.Prelude.{◌≡◌, ◌++◌, ℕ, List};
ghost use Rattle.std.specs.List.{All};
ghost use Rattle.record_lines.specs.Lines.{AreLegalAfter, AreRecordLines, AreSpelled, CanBeSpelled, IsFirstBadLine};

use crate::{Keeper, LineRecord};

/// A file has the lines of one list at most, and then no first bad line; and it has one first bad line
/// at most.
pub fn files_have_one_reading<R: LineRecord, K: Keeper<R>>(bytes: &[u8])
    ensures records { (one : List R) (two : List R) → AreRecordLines R.spells K.legal bytes.now one
        → AreRecordLines R.spells K.legal bytes.now two → one ≡ two }
    ensures good { (records : List R) (offset : ℕ) → AreRecordLines R.spells K.legal bytes.now records
        → ¬ IsFirstBadLine R.spells K.legal bytes.now offset }
    ensures offset { (one : ℕ) (two : ℕ) → IsFirstBadLine R.spells K.legal bytes.now one
        → IsFirstBadLine R.spells K.legal bytes.now two → one ≡ two }
{
    let _ = bytes;
}

/// Lines that are added to a file's read back after its own, where their records may come after its
/// own; so what is written reads back, since a file of no bytes has no records.
pub fn added_lines_read_back<R: LineRecord, K: Keeper<R>>(bytes: &[u8], added: &[u8])
    ensures { (records : List R) (more : List R) → AreRecordLines R.spells K.legal bytes.now records
        → AreSpelled R.spells added.now more → AreLegalAfter K.legal records more
        → AreRecordLines R.spells K.legal (bytes.now ++ added.now) (records ++ more) }
{
    let _ = bytes;
    let _ = added;
}

/// What was read of a file can be written.
pub fn read_records_can_be_written<R: LineRecord>(bytes: &[u8])
    ensures { (records : List R) → AreSpelled R.spells bytes.now records
        → All (CanBeSpelled R.spells) records }
{
    let _ = bytes;
}
