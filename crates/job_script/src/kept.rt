//! Which variables a job keeps.
ghost use Rattle.std.specs.Prelude.{◌≡◌};
ghost use Rattle.job_script.specs.Variables.{is_kept_variable, may_be_set, is_reserved, is_variable_name, is_variable_byte, are_variable_bytes, begins_variable, has_no_zero, is_no_zero};

/// Whether a job keeps the variable.
pub(crate) fn is_kept_by_a_job(name: &str, value: &str) -> bool
    ensures { result ≡ is_kept_variable (name.now, value.now) }
{
    may_be_set_in_a_job(name.as_bytes()) && is_without_zero(value.as_bytes())
}

/// Whether a job may have a variable with this name.
pub(crate) fn may_be_set_in_a_job(name: &[u8]) -> bool
    ensures { result ≡ may_be_set name.now }
{
    is_name_of_a_variable(name) && !is_reserved_name(name)
}

fn is_name_of_a_variable(name: &[u8]) -> bool
    ensures { result ≡ is_variable_name name.now }
{
    !name.is_empty() && can_begin(name[0]) && has_variable_bytes(name)
}

fn has_variable_bytes(name: &[u8]) -> bool
    ensures { result ≡ are_variable_bytes name.now }
{
    name.iter().all(|byte| is_variable_byte(*byte))
}

fn can_begin(byte: u8) -> bool
    ensures { result ≡ begins_variable byte }
{
    byte.is_ascii_alphabetic() || byte == b'_'
}

/// Whether the byte may be in a variable's name.
pub(crate) fn is_variable_byte(byte: u8) -> bool
    ensures { result ≡ is_variable_byte byte }
{
    byte.is_ascii_alphanumeric() || byte == b'_'
}

fn is_reserved_name(name: &[u8]) -> bool
    ensures { result ≡ is_reserved name.now }
{
    let is_of_bash = name == b"BASH_VERSINFO".as_slice() || name == b"SHELLOPTS".as_slice();
    let is_of_a_process = name == b"EUID".as_slice()
        || name == b"GROUPS".as_slice()
        || name == b"UID".as_slice();
    let is_of_a_terminal = name == b"DISPLAY".as_slice() || name == b"TERM".as_slice();
    is_of_bash || is_of_a_process || is_of_a_terminal || name == b"_".as_slice()
}

/// Whether there is no zero byte.
pub fn is_without_zero(bytes: &[u8]) -> bool
    ensures { result ≡ has_no_zero bytes.now }
{
    bytes.iter().all(|byte| is_no_zero_byte(*byte))
}

fn is_no_zero_byte(byte: u8) -> bool
    ensures { result ≡ is_no_zero byte }
{
    byte != 0
}
