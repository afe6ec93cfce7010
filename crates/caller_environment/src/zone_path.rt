//! Which file has the rule of a zone.
ghost use Rattle.std.specs.Prelude.{◌≡◌, IfOk, option_copied};
ghost use Rattle.caller_environment.specs.ZoneFile.{file_of_zone, has_mark, names_contain, is_utc_name, needs_no_file, zone_directory, zone_file, zone_name};

use crate::paths::joined_texts;
use host_calls::Text;
use std::alloc::{AllocError, Global};

/// The names of UTC.
pub const UTC_NAMES: [&str; 18] = [
    "UTC",
    "UTC0",
    "UCT",
    "GMT",
    "GMT0",
    "GMT+0",
    "GMT-0",
    "Greenwich",
    "Universal",
    "Zulu",
    "Etc/UTC",
    "Etc/UCT",
    "Etc/GMT",
    "Etc/GMT0",
    "Etc/GMT+0",
    "Etc/Greenwich",
    "Etc/Universal",
    "Etc/Zulu",
];

/// The file whose last line is the rule of the caller's zone, by TZ and TZDIR. None where TZ alone says it: where it is
/// empty, a name of UTC, or a rule with `,` or `<`.
pub fn zone_file(
    alloc: Global,
    zone: Option<&str>,
    directory: Option<&str>,
) -> Result<Option<Text>, AllocError>
    ensures { IfOk result (λ file. file ≡ zone_file (option_copied zone.entry) (option_copied directory.entry)) }
{
    match zone {
        None => Ok(Some(Text::of(alloc, "/etc/localtime")?)),
        Some(zone) if needs_no_file(zone) => Ok(None),
        Some(zone) => Ok(Some(file_of_zone(alloc, zone, zone_directory(directory))?)),
    }
}

fn needs_no_file(zone: &str) -> bool
    ensures { result ≡ needs_no_file zone.now }
{
    zone.is_empty() || is_utc_name(zone) || has_mark(zone.as_bytes())
}

/// Whether TZ has a name of UTC.
pub fn is_utc_name(zone: &str) -> bool
    ensures { result ≡ is_utc_name zone.now }
{
    names_contain(&UTC_NAMES, zone_name(zone))
}

fn names_contain(names: &[&str], text: &str) -> bool
    ensures { result ≡ names_contain names.now text.now }
{
    names.iter().any(|name| *name == text)
}

fn has_mark(zone: &[u8]) -> bool
    ensures { result ≡ has_mark zone.now }
{
    zone.iter().any(|byte| *byte == b',' || *byte == b'<')
}

// The directory of zone files.
fn zone_directory(directory: Option<&str>) -> &str
    ensures { result.now ≡ zone_directory (option_copied directory.entry) }
{
    match directory {
        Some(directory) if !directory.is_empty() => directory,
        _ => "/usr/share/zoneinfo",
    }
}

// The file of a zone that is named: a path from the root, or one below the directory.
fn file_of_zone(alloc: Global, zone: &str, directory: &str) -> Result<Text, AllocError>
    ensures { IfOk result (λ file. file ≡ file_of_zone directory.now zone.now) }
{
    let name = zone_name(zone);
    if matches!(name.as_bytes(), [b'/', ..]) {
        return Text::of(alloc, name);
    }
    let mut path = String::from_str(alloc, directory)?;
    path.push_str("/")?;
    path.push_str(name)?;
    Ok(Text::from(path))
}

// The name without a colon before it.
fn zone_name(zone: &str) -> &str
    ensures { result.now ≡ zone_name zone.now }
{
    match zone.strip_prefix(':') {
        Some(name) => name,
        None => zone,
    }
}
