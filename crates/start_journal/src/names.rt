//! The name of the journal.
ghost use Rattle.std.specs.Prelude.{◌≡◌};
ghost use Rattle.start_journal.specs.Journals.{journal_file};

use host_calls::Name;

/// The name of the journal.
pub fn journal_name() -> Name
    ensures { result ≡ journal_file }
{
    Name::of(b".JRN").unwrap()
}
