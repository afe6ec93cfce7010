//! The reader of a file of records.
ghost use Rattle.std.specs.Prelude.{◌≡◌, ◌+◌, ◌==◌, ◌∷◌, ◌++◌, [], ℕ, List, IfOk, IfErr, IfSome, IfNone, OnOk};
ghost use Rattle.std.specs.List.{position};
ghost use Rattle.record_lines.specs.Lines.{AreRecordLines, HasBadFirstLine, IsFirstBadLine, IsGoodLine};
ghost use Rattle.record_lines.specs.declared.reader.LinesFault.TheVariants as lines;

use crate::{Keeper, LineRecord};
use std::alloc::{AllocError, Global};

/// Why a file has no records: its first bad line, by the offset of its first byte, or an out-of-memory error.
#[derive(Clone, Copy, Debug, PartialEq, Eq)]
pub enum LinesFault {
    At(usize),
    Memory,
}

impl From<AllocError> for LinesFault {
    ghost from_gives = { λ _ fault. fault ≡ lines.Memory };

    fn from(_error: AllocError) -> Self {
        LinesFault::Memory
    }
}

/// The records of a file, each of which may come after those before it. The keeper, which has no
/// records yet, holds them all afterwards; after a fault it holds those that were read.
pub fn read_lines<R: LineRecord, K: Keeper<R>>(
    alloc: Global,
    bytes: &[u8],
    keeper: &mut K,
) -> Result<Vec<R>, LinesFault>
    requires { K.tells [] keeper.old }
    ensures lines { IfOk result (λ records. AreRecordLines R.spells K.legal bytes.now records.items) }
    ensures told { IfOk result (λ records. K.tells records.items keeper.new) }
    ensures damaged { IfErr result (λ fault. (offset : ℕ) → fault ≡ lines.At offset
        → IsFirstBadLine R.spells K.legal bytes.now offset) }
{
    let mut records = Vec::new(alloc);
    let mut offset = 0;
    while offset < bytes.len() {
        let Some(first) = first_line::<R, K>(&bytes[offset..], keeper) else {
            return Err(LinesFault::At(offset));
        };
        keep_record(&mut records, keeper, &first.one)?;
        offset += first.length;
    }
    Ok(records)
}

// A record that may come next, and the length of its line, with the newline.
#[derive(Drop)]
struct FirstLine<R> {
    one: R,
    length: usize,
}

// The record of the first line of what is left of a file, unless that line is bad.
fn first_line<R: LineRecord, K: Keeper<R>>(rest: &[u8], keeper: &K) -> Option<FirstLine<R>>
    ensures good { IfSome result (λ first. (before : List R) → K.tells before keeper.now
        → IsGoodLine R.spells K.legal before rest.now first.one first.length) }
    ensures bad { IfNone result ((before : List R) → K.tells before keeper.now
        → HasBadFirstLine R.spells K.legal before rest.now) }
{
    let end = line_end(rest)?;
    let one = R::read(&rest[..end])?;
    if !keeper.allows(&one) {
        return None;
    }
    Some(FirstLine {
        one,
        length: end + 1,
    })
}

// The offset of the first newline.
fn line_end(rest: &[u8]) -> Option<usize>
    ensures { result ≡ position (λ byte. byte == 10) rest.now }
{
    rest.iter().position(|byte| *byte == b'\n')
}

// Puts one more record after the others.
fn keep_record<R: LineRecord, K: Keeper<R>>(
    records: &mut Vec<R>,
    keeper: &mut K,
    one: &R,
) -> Result<(), AllocError>
    ensures records { OnOk result (records.new.items ≡ records.old.items ++ one.now ∷ []) }
    ensures keeper { OnOk result ((before : List R) → K.tells before keeper.old → K.legal before one.now
        → K.tells (before ++ one.now ∷ []) keeper.new) }
{
    keeper.add(one)?;
    records.push(*one)?;
    Ok(())
}
