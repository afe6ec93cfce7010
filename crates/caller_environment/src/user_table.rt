//! The table of users.
ghost use Rattle.std.specs.Prelude.{◌≡◌, option_copied};
ghost use Rattle.caller_environment.specs.UserTable.{has_user_number, home_in, is_user_named, name_in_user_line, named_line, numbered_line, user_line};

use crate::digits::user_number;
use crate::fields::field;

/// The line of a user in the table: the first with this number and name, or else the first with the number.
pub fn user_line<'a>(table: &'a [u8], number: u32, name: &[u8]) -> Option<&'a [u8]>
    ensures { option_copied result ≡ user_line number name.now table.now }
{
    match named_line(table, number, name) {
        Some(line) => Some(line),
        None => numbered_line(table, number),
    }
}

/// The user's name that a line of the table has.
pub fn name_in_user_line(line: &[u8]) -> &[u8]
    ensures { result.now ≡ name_in_user_line line.now }
{
    field(line, b':', 0).unwrap_or(line)
}

/// The home directory that a line of the table has.
pub fn home_in(line: &[u8]) -> Option<&[u8]>
    ensures { option_copied result ≡ home_in line.now }
{
    field(line, b':', 5)
}

// The first line with this number and name.
fn named_line<'a>(table: &'a [u8], number: u32, name: &[u8]) -> Option<&'a [u8]>
    ensures { option_copied result ≡ named_line number name.now table.now }
{
    table
        .split(|byte| *byte == b'\n')
        .find(|line| is_user_named(line, number, name))
}

// The first line with this number.
fn numbered_line(table: &[u8], number: u32) -> Option<&[u8]>
    ensures { option_copied result ≡ numbered_line number table.now }
{
    table
        .split(|byte| *byte == b'\n')
        .find(|line| has_user_number(line, number))
}

fn is_user_named(line: &[u8], number: u32, name: &[u8]) -> bool
    ensures { result ≡ is_user_named number name.now line.now }
{
    has_user_number(line, number) && name_in_user_line(line) == name
}

// Whether the user number of a line is this one.
fn has_user_number(line: &[u8], number: u32) -> bool
    ensures { result ≡ has_user_number number line.now }
{
    match field(line, b':', 2) {
        Some(digits) => user_number(digits) == Some(number),
        None => false,
    }
}
