//! The names of the file of the mark.
ghost use Rattle.std.specs.Prelude.{◌≡◌};
ghost use Rattle.cron_session.specs.MarkNames.{mark_file, mark_temp};

use host_calls::Name;

/// The name of the file of the mark.
pub fn mark_name() -> Name
    ensures { result ≡ mark_file }
{
    Name::of(b".CRON").unwrap()
}

/// The name under which the file of the mark is made before it takes the place of the old one.
pub fn mark_temporary_name() -> Name
    ensures { result ≡ mark_temp }
{
    Name::of(b".CTMP").unwrap()
}
