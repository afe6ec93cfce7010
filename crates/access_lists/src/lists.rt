//! The lists of users.
ghost use Rattle.std.specs.Prelude.{◌≡◌, option_copied};
ghost use Rattle.access_lists.specs.Access.{is_listed, may_use, name_in_list_line};

use spool_model::UserName;
use text_reader::{after_blanks, before_blanks};

/// Whether the user may use `at`, given the texts of at.allow and at.deny where they exist.
pub fn permits(user: &UserName, allow: Option<&[u8]>, deny: Option<&[u8]>) -> bool
    ensures { result ≡ may_use user.now (option_copied allow.entry) (option_copied deny.entry) }
{
    let user = user.as_bytes();
    if user == b"root".as_slice() {
        return true;
    }
    match (allow, deny) {
        (Some(allow), _) => is_listed(allow, user),
        (None, Some(deny)) => !is_listed(deny, user),
        (None, None) => false,
    }
}

// Whether some line of the list tells the user's name.
// A carriage return at the end of a line is a part of the name: only spaces and tabs are left out.
fn is_listed(list: &[u8], user: &[u8]) -> bool
    ensures { result ≡ is_listed list.now user.now }
{
    list.split(|byte| *byte == b'\n')
        .any(|line| name_of(line) == user)
}

// The name that a line tells.
fn name_of(line: &[u8]) -> &[u8]
    ensures { result.now ≡ name_in_list_line line.now }
{
    before_blanks(after_blanks(line))
}
