//! The parts of an answer that are recorded apart.
ghost use Rattle.std.specs.Prelude.{◌≡◌};
ghost use Rattle.system_calls.specs.Answers.{bytes_of_option, bytes_of_variable, outcome_of_variable};

use crate::call::VariableOutcome;
use host_calls::{Bytes, Text};
use std::alloc::AllocError;

/// The bytes of a text that may be absent.
pub(crate) fn bytes_of_text(text: &Option<Text>) -> &[u8]
    ensures { result.now ≡ bytes_of_option text.now }
{
    match text {
        Some(text) => text.as_str().as_bytes(),
        None => &[],
    }
}

/// The bytes of lines that may be absent.
pub(crate) fn bytes_of_lines(lines: &Option<Bytes>) -> &[u8]
    ensures { result.now ≡ bytes_of_option lines.now }
{
    match lines {
        Some(lines) => lines.as_slice(),
        None => &[],
    }
}

/// The result of reading a variable, without its value.
pub(crate) fn outcome_of_variable(read: &Result<Option<Text>, AllocError>) -> VariableOutcome
    ensures { result ≡ outcome_of_variable read.now }
{
    match read {
        Ok(Some(_)) => VariableOutcome::Set,
        Ok(None) => VariableOutcome::Absent,
        Err(_) => VariableOutcome::OutOfMemory,
    }
}

/// The value of a variable.
pub(crate) fn bytes_of_variable(read: &Result<Option<Text>, AllocError>) -> &[u8]
    ensures { result.now ≡ bytes_of_variable read.now }
{
    match read {
        Ok(value) => bytes_of_text(value),
        Err(_) => &[],
    }
}
