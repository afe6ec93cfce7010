//! Records, their lines, what is new, and what records come to.
ghost use Rattle.std.specs.Prelude.{◌≤◌, ◌<◌, ◌^◌, ℕ, List, Option};
ghost use Rattle.record_lines.specs.Lines.{AreLegalAfter, CanBeSpelled};
ghost use Rattle.at_account.specs.Lines.{HasOwner, SpellsRecord};
ghost use Rattle.at_account.specs.News.{news_of};
ghost use Rattle.at_account.specs.Records.{IsRecordAllowed};
ghost use Rattle.at_account.specs.RecordStates.{IsRecordStateAt};
ghost use Rattle.at_account.specs.declared.ledger.RecordState.{RecordState};
ghost use Rattle.at_account.specs.declared.new_records.KnownJob.{KnownJob};
ghost use Rattle.at_account.specs.declared.record.AccountRecord.{AccountRecord};
ghost use Rattle.at_account.specs.Laws.{NewsAreOne};

/// A record of a number from 1 on, whose owner, where it has one, has a letter for the queue, can be
/// written.
pub fn records_can_be_written()
    ensures { (one : AccountRecord) → 1 ≤ one.number → one.number < 2 ^ 32 → HasOwner one.event
        → CanBeSpelled SpellsRecord one }
{}

/// What is new of a number may come after the records.
pub fn news_may_come()
    ensures { (before : List AccountRecord) (number : ℕ) (record_state : Option RecordState) (known : Option KnownJob)
        → IsRecordStateAt before number record_state → AreLegalAfter IsRecordAllowed before (news_of before number known) }
{}

/// The new records after others are fixed by what the table has of each number.
pub fn news_are_one()
    ensures { NewsAreOne }
{}
