//! The text of a job.
ghost use Rattle.std.specs.Prelude.{◌≡◌, ◌++◌, ◌<◌, IfOk, OnOk};
ghost use Rattle.job_script.specs.Check.{Written};
ghost use Rattle.job_script.specs.Variables.{kept};
ghost use Rattle.job_script.specs.Header.{after_user};
ghost use Rattle.job_script.specs.JobText.{quoted, text_for, quoted_part, umask_line, variable_line, variable_lines};
ghost use Rattle.job_script.specs.Form.{IsJobText, JobMeaning, MeansJob, meaning_for};

use crate::checks::check;
use crate::kept::is_kept_by_a_job;
use crate::{Context, ScriptFault};
use host_calls::{Bytes, Text};
use std::alloc::{AllocError, Global};

/// The greatest length of the commands of a job.
pub const MAX_COMMANDS: usize = 1_048_576;

/// The text of a job that runs the commands as its caller would. It refuses as `check` does, and
/// then commands that are too long.
pub fn write(
    alloc: Global,
    context: &Context,
    mail: bool,
    commands: &[u8],
) -> Result<Bytes, ScriptFault>
    requires { context.now.umask < 512 }
    ensures refused { Written context.now commands.now result }
    ensures text { IfOk result (λ text. text ≡ text_for context.now mail commands.now) }
    ensures means { IfOk result (λ text. MeansJob text (meaning_for context.now mail commands.now)) }
    ensures only { IfOk result (λ text. (job : JobMeaning) → MeansJob text job
        → job ≡ meaning_for context.now mail commands.now) }
    ensures form { IfOk result IsJobText }
{
    check(context)?;
    if commands.len() > MAX_COMMANDS {
        return Err(ScriptFault::TooLong);
    }
    match script_text(alloc, context, mail, commands) {
        Ok(text) => Ok(Bytes::from(text)),
        Err(_) => Err(ScriptFault::Memory),
    }
}

fn script_text(
    alloc: Global,
    context: &Context,
    mail: bool,
    commands: &[u8],
) -> Result<Vec<u8>, AllocError>
    requires { context.now.umask < 512 }
    ensures { IfOk result (λ text. text.items ≡ text_for context.now mail commands.now) }
{
    let mut text = Vec::from_slice(alloc, b"#!/bin/sh\n# at user=")?;
    text.extend_from_slice(context.user.as_str().as_bytes())?;
    text.extend_from_slice(text_of_flag(mail))?;
    put_umask(&mut text, context.umask)?;
    put_variables(&mut text, context.environment.as_slice())?;
    text.extend_from_slice(b"cd ")?;
    put_quoted(&mut text, context.directory.as_str().as_bytes())?;
    text.extend_from_slice(b" || {\n\techo 'Execution directory inaccessible' >&2\n\texit 1\n}\n")?;
    text.extend_from_slice(commands)?;
    Ok(text)
}

fn text_of_flag(mail: bool) -> &'static [u8]
    ensures { result.now ≡ after_user mail }
{
    if mail { b" mail=1\n" } else { b" mail=0\n" }
}

fn put_umask(text: &mut Vec<u8>, umask: u16) -> Result<(), AllocError>
    requires { umask < 512 }
    ensures { OnOk result (text.new.items ≡ text.old.items ++ umask_line umask) }
{
    text.extend_from_slice(b"umask 0")?;
    text.push(b'0' + (umask / 64 % 8) as u8)?;
    text.push(b'0' + (umask / 8 % 8) as u8)?;
    text.push(b'0' + (umask % 8) as u8)?;
    text.push(b'\n')?;
    Ok(())
}

fn put_variables(text: &mut Vec<u8>, variables: &[(Text, Text)]) -> Result<(), AllocError>
    ensures { OnOk result (text.new.items ≡ text.old.items ++ variable_lines (kept variables.now)) }
{
    for (name, value) in variables {
        if is_kept_by_a_job(name.as_str(), value.as_str()) {
            put_variable(text, name.as_str(), value.as_str())?;
        }
    }
    Ok(())
}

fn put_variable(text: &mut Vec<u8>, name: &str, value: &str) -> Result<(), AllocError>
    ensures { OnOk result (text.new.items ≡ text.old.items ++ variable_line name.now (quoted value.now)) }
{
    text.extend_from_slice(name.as_bytes())?;
    text.push(b'=')?;
    put_quoted(text, value.as_bytes())?;
    text.extend_from_slice(b"; export ")?;
    text.extend_from_slice(name.as_bytes())?;
    text.push(b'\n')?;
    Ok(())
}

/// Puts the value after the text, as one word of the shell: between single quotes.
pub fn put_quoted(text: &mut Vec<u8>, value: &[u8]) -> Result<(), AllocError>
    ensures { OnOk result (text.new.items ≡ text.old.items ++ quoted value.now) }
{
    text.push(b'\'')?;
    for byte in value {
        put_quoted_byte(text, *byte)?;
    }
    text.push(b'\'')?;
    Ok(())
}

fn put_quoted_byte(text: &mut Vec<u8>, byte: u8) -> Result<(), AllocError>
    ensures { OnOk result (text.new.items ≡ text.old.items ++ quoted_part byte) }
{
    if byte == b'\'' {
        text.extend_from_slice(b"'\\''")?;
    } else {
        text.push(byte)?;
    }
    Ok(())
}
