//! The users of rows.
ghost use Rattle.std.specs.Prelude.{Contains};
ghost use Rattle.spool_model.specs.declared.row.Row.{Row};
ghost use Rattle.spool_model.specs.Users.{IsUserName};

use spool_model::Row;

// Each row's user is a name. It is so of every user, and costs nothing.
pub(crate) fn users_are_names(rows: &[Row])
    ensures { (row : Row) → Contains rows.now row → IsUserName row.user }
{
    for row in rows {
        prove!(!row.user.as_bytes().is_empty());
    }
}
