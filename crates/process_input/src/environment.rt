//! The words and the variables of this process.
use crate::startup_error::StartupError;
use host_calls::Text;
use job_script::Variables;
use std::alloc::{AllocError, Global};
use std::env::{Env, FillError, VarError};
use std::io::ErrorKind;
use std::{env, str};

// The room for one variable at first, and how often it is doubled at most.
const ROOM: usize = 512;

const DOUBLINGS: u32 = 40;

/// The words by which this process was called.
pub fn process_words(rt: &HostRuntime) -> Result<Vec<String>, StartupError> {
    match env::args(rt) {
        Ok(words) => Ok(words.collect::<Vec<String>>(rt.alloc())?),
        Err(error) if error.kind() == ErrorKind::OutOfMemory => Err(StartupError::Memory),
        Err(_) => Err(StartupError::Words),
    }
}

/// The value of a variable, or the usual one where it is not there or no text.
pub fn variable_or(rt: &HostRuntime, name: &str, usual: &str) -> Result<Text, AllocError> {
    match variable(rt, name)? {
        Some(value) => Ok(Text::from(value)),
        None => Text::of(rt.alloc(), usual),
    }
}

/// The value of a variable, where it exists and is a text.
pub fn variable(rt: &HostRuntime, name: &str) -> Result<Option<String>, AllocError> {
    match env::var(rt, name) {
        Ok(value) => Ok(Some(value)),
        Err(VarError::OutOfMemory) => Err(AllocError),
        Err(VarError::NotPresent | VarError::NotUnicode) => Ok(None),
    }
}

/// All variables that are texts, in the order of the runtime.
pub fn variables_of(rt: &HostRuntime) -> Result<Variables, AllocError> {
    let alloc = rt.alloc();
    let mut variables = Variables::new(alloc);
    for (name, value) in &environment_variables(rt)? {
        variables.push(alloc, name.as_str(), value.as_str())?;
    }
    Ok(variables)
}

/// The names and values of all variables that are texts, in the order of the runtime.
pub fn environment_variables(rt: &HostRuntime) -> Result<Vec<(Text, Text)>, AllocError> {
    let alloc = rt.alloc();
    let mut entries = Vec::new(alloc);
    for place in 0..usize::MAX {
        let Some(entry) = entry_at(rt, alloc, place)? else {
            break;
        };
        if let Some((name, value)) = split(entry.as_slice()) {
            entries.push((Text::of(alloc, name)?, Text::of(alloc, value)?))?;
        }
    }
    Ok(entries)
}

// The entry of the environment at this place; none after the last.
fn entry_at<R: Env>(rt: &R, alloc: Global, place: usize) -> Result<Option<Vec<u8>>, AllocError> {
    let mut room = ROOM;
    for _ in 0..DOUBLINGS {
        let mut entry = vec![in alloc; 0; room]?;
        match rt.var_at(place, &mut entry) {
            Ok(count) => {
                entry.truncate(count);
                return Ok(Some(entry));
            }
            Err(FillError::NotPresent) => return Ok(None),
            Err(FillError::TooLong) => room = room.saturating_mul(2),
        }
    }
    Err(AllocError)
}

// The name and the value of an entry that is a text and has a name.
fn split(entry: &[u8]) -> Option<(&str, &str)> {
    let (name, value) = str::from_utf8(entry).ok()?.split_once('=')?;
    if name.is_empty() {
        return None;
    }
    Some((name, value))
}
