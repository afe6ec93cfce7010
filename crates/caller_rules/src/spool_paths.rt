//! The paths of a spool and of what lies next to it.
ghost use Rattle.std.specs.Prelude.{◌≡◌, ◌++◌, IfOk};
ghost use Rattle.std.specs.Path.{path_file_name};
ghost use Rattle.caller_rules.specs.SpoolPaths.{AreSpoolPaths, IsPathOfName, IsWholePath, path_within, paths_by, place_of};

use host_calls::Text;
use std::alloc::{AllocError, Global};
use std::path::Path;
use system_calls::System;

/// The absolute paths of a spool that no link is in, of its directory of outputs, of its lock and of the directory that
/// they lie in.
#[derive(Drop)]
pub struct SpoolPaths {
    pub spool: Text,
    pub outputs: Text,
    pub lock: Text,
    pub parent: Text,
}

/// The paths of the spool that this path names. None where the directory in which it is to lie is absent.
pub fn paths_of<S: System>(
    system: &mut S,
    alloc: Global,
    path: &str,
) -> Result<Option<SpoolPaths>, AllocError>
    /// A spool's paths are those of its path without links, or of that of the directory in which it is to be made.
    ensures { IfOk result (AreSpoolPaths path.now (S.trace system.old) (S.trace system.new)) }
{
    match whole_path(system, alloc, path)? {
        Some(whole) => Ok(paths_by(alloc, whole)?),
        None => Ok(None),
    }
}

// The absolute path, by that of the directory in which it lies where it is absent itself.
fn whole_path<S: System>(
    system: &mut S,
    alloc: Global,
    path: &str,
) -> Result<Option<Text>, AllocError>
    ensures { IfOk result (IsWholePath path.now (S.trace system.old) (S.trace system.new)) }
{
    match system.canonical_path(path) {
        Some(whole) => Ok(Some(whole)),
        None => Ok(path_of_name(system, alloc, path)?),
    }
}

// The same, by the directory.
fn path_of_name<S: System>(
    system: &mut S,
    alloc: Global,
    path: &str,
) -> Result<Option<Text>, AllocError>
    ensures { IfOk result (IsPathOfName (path_file_name path.now) path.now (S.trace system.old) (S.trace system.new)) }
{
    let Some(name) = Path::new(path).file_name() else {
        return Ok(None);
    };
    match system.canonical_path(place_of(path)) {
        Some(place) => Ok(Some(path_within(alloc, place.as_str(), name)?)),
        None => Ok(None),
    }
}

// The directory in which a path lies.
fn place_of(path: &str) -> &str
    ensures { result.now ≡ place_of path.now }
{
    match Path::new(path).parent() {
        Some(parent) if !parent.as_str().is_empty() => parent.as_str(),
        _ => ".",
    }
}

// The paths of a spool that no link is in.
fn paths_by(alloc: Global, spool: Text) -> Result<Option<SpoolPaths>, AllocError>
    ensures { IfOk result (λ paths. paths ≡ paths_by spool) }
{
    let Some(parent) = Path::new(spool.as_str()).parent() else {
        return Ok(None);
    };
    let parent = Text::of(alloc, parent.as_str())?;
    let outputs = joined(alloc, spool.as_str(), ".out")?;
    let lock = joined(alloc, spool.as_str(), ".lock")?;
    Ok(Some(SpoolPaths {
        spool,
        outputs,
        lock,
        parent,
    }))
}

/// The path of a name in a directory.
pub fn path_within(alloc: Global, directory: &str, name: &str) -> Result<Text, AllocError>
    ensures { IfOk result (λ path. path ≡ path_within directory.now name.now) }
{
    if directory == "/" {
        return joined(alloc, directory, name);
    }
    let mut path = String::from_str(alloc, directory)?;
    path.push_str("/")?;
    path.push_str(name)?;
    Ok(Text::from(path))
}

/// One text after another.
pub(crate) fn joined(alloc: Global, start: &str, rest: &str) -> Result<Text, AllocError>
    ensures { IfOk result (λ path. path ≡ start.now ++ rest.now) }
{
    let mut path = String::from_str(alloc, start)?;
    path.push_str(rest)?;
    Ok(Text::from(path))
}
