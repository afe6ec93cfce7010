//! The check of the numbers that are started and not finished.
ghost use Rattle.std.specs.Prelude.{◌≡◌, ◌<◌, ◌+◌, ◌*◌, ◌^◌, ℕ, List, Some, length, map};
ghost use Rattle.spool_shows.specs.JobFiles.{JobFile};
ghost use Rattle.spool_shows.specs.Shown.{mark_damage, starts_damage};
ghost use Rattle.start_journal.specs.declared.mark.Mark.{Mark};
ghost use Rattle.start_journal.specs.Lifecycles.{TellLifecycles};
ghost use Rattle.spool_store.specs.Listed.{AreSortedEntries};
ghost use Rattle.spool_store.specs.Rows.{row_entry};
ghost use Rattle.spool_store.specs.inside.JobRows.{ListsRows};

use crate::sorted::row_of_number;
use host_calls::Damage;
use spool_model::Row;
use start_journal::{Lifecycles, Mark, gate_damage, queue_damage};

// The damage of the first start whose number is not finished and has no row, or one of another queue.
pub(crate) fn starts_fault(marks: &[Mark], lives: &Lifecycles, rows: &[Row]) -> Option<Damage>
    requires fits { 32 * length marks.now < 2 ^ 64 }
    requires order { AreSortedEntries (map row_entry rows.now) }
    ensures { (files : List JobFile) → TellLifecycles marks.now lives.now → ListsRows marks.now files rows.now
        → result ≡ starts_damage marks.now files 0 marks.now }
{
    for (place, mark) in marks.iter().enumerate() {
        let fault = start_mark_damage(place as u64, *mark, lives, rows);
        if fault.is_some() {
            return fault;
        }
    }
    None
}

// The damage that the mark at this place of the journal shows.
fn start_mark_damage(place: u64, mark: Mark, lives: &Lifecycles, rows: &[Row]) -> Option<Damage>
    requires fits { 32 * place + 10 < 2 ^ 64 }
    requires order { AreSortedEntries (map row_entry rows.now) }
    ensures { (marks : List Mark) (files : List JobFile) → TellLifecycles marks lives.now
        → ListsRows marks files rows.now → result ≡ mark_damage marks files place mark }
{
    let Mark::Started { number, queue, .. } = mark else {
        return None;
    };
    if lives.get(number).fate.is_some() {
        return None;
    }
    match row_of_number(rows, number) {
        None => Some(gate_damage(place)),
        Some(row) if row.queue == queue => None,
        Some(_) => Some(queue_damage(place, queue)),
    }
}
