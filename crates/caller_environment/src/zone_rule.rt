//! The rule at the end of a zone's file.
ghost use Rattle.std.specs.Prelude.{◌≡◌, option_copied};
ghost use Rattle.std.specs.List.{list_all};
ghost use Rattle.caller_environment.specs.ZoneRule.{begins_rule, is_rule_line, is_rule_byte, is_zone_file, last_line, rule_in};

use crate::fields::part_after_last;

/// The greatest length of a zone's file that is read.
pub const MAX_ZONE_FILE: usize = 65536;

/// The greatest length of a rule.
pub const MAX_RULE: usize = 64;

/// The rule of a zone: the last line of its file, where the file is one of zones and is not too long, and the line begins
/// with a letter or `<`, and is printable ASCII without spaces that is not too long.
pub fn rule_in(file: &[u8]) -> Option<&[u8]>
    ensures { option_copied result ≡ rule_in file.now }
{
    if !is_zone_file(file) {
        return None;
    }
    let line = last_line(file)?;
    if is_rule_line(line) { Some(line) } else { None }
}

fn is_zone_file(file: &[u8]) -> bool
    ensures { result ≡ is_zone_file file.now }
{
    file.len() <= MAX_ZONE_FILE && file.starts_with(b"TZif")
}

// The last line of a file that ends with a newline.
fn last_line(file: &[u8]) -> Option<&[u8]>
    ensures { option_copied result ≡ last_line file.now }
{
    match file {
        [lines @ .., b'\n'] => Some(part_after_last(lines, b'\n')),
        _ => None,
    }
}

fn is_rule_line(line: &[u8]) -> bool
    ensures { result ≡ is_rule_line line.now }
{
    line.len() <= MAX_RULE && begins_rule(line) && are_rule_bytes(line)
}

fn are_rule_bytes(line: &[u8]) -> bool
    ensures { result ≡ list_all is_rule_byte line.now }
{
    line.iter().all(|byte| is_rule_byte(*byte))
}

fn begins_rule(line: &[u8]) -> bool
    ensures { result ≡ begins_rule line.now }
{
    match line {
        [first, ..] => first.is_ascii_alphabetic() || *first == b'<',
        [] => false,
    }
}

// Printable ASCII other than a space.
fn is_rule_byte(byte: u8) -> bool
    ensures { result ≡ is_rule_byte byte }
{
    b'!' <= byte && byte <= b'~'
}
