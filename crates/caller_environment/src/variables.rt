//! The variables of a job.
ghost use Rattle.std.specs.Prelude.{◌≡◌, ◌++◌, IfOk, OnOk, option_copied};
ghost use Rattle.caller_environment.specs.Variables.{absent_variable, changed_variables, has_variable, job_variables, value_for};

use host_calls::Text;
use job_script::Variables;
use std::alloc::{AllocError, Global};

/// What a tool sets itself: the values of two variables, and in which zone times are read.
#[derive(Drop)]
pub struct CallerSettings {
    /// PWD: the directory of the process.
    pub directory: Text,
    /// LOGNAME: the name of the user.
    pub user: Text,
    /// The rule of the zone; absent where it is what TZ has. A job's TZ stays as it is.
    pub zone: Option<Text>,
}

/// The variables of a job, from those of the process: each of the two that are set has its value, in its place, and all
/// others stay, in order, TZ too. One of the two that is not there comes last.
pub fn job_variables(
    alloc: Global,
    variables: &[(Text, Text)],
    settings: &CallerSettings,
) -> Result<Variables, AllocError>
    ensures { IfOk result (λ made. made ≡ job_variables settings.now variables.now) }
{
    let mut made = changed_variables(alloc, variables, settings)?;
    add_absent(alloc, &mut made, variables, settings, "PWD")?;
    add_absent(alloc, &mut made, variables, settings, "LOGNAME")?;
    Ok(made)
}

// The variables of the process, with the values that are set in place.
fn changed_variables(
    alloc: Global,
    variables: &[(Text, Text)],
    settings: &CallerSettings,
) -> Result<Variables, AllocError>
    ensures { IfOk result (λ made. made ≡ changed_variables settings.now variables.now) }
{
    let mut made = Variables::new(alloc);
    for variable in variables {
        let name = variable.0.as_str();
        let value = value_for(settings, name).unwrap_or(variable.1.as_str());
        made.push(alloc, name, value)?;
    }
    Ok(made)
}

// Adds the variable of this name, where it is set and the process has none of the name.
fn add_absent(
    alloc: Global,
    made: &mut Variables,
    variables: &[(Text, Text)],
    settings: &CallerSettings,
    name: &str,
) -> Result<(), AllocError>
    ensures { OnOk result (made.new ≡ made.old ++ absent_variable settings.now variables.now name.now) }
{
    if has_variable(variables, name) {
        return Ok(());
    }
    match value_for(settings, name) {
        Some(value) => made.push(alloc, name, value),
        None => Ok(()),
    }
}

fn has_variable(variables: &[(Text, Text)], name: &str) -> bool
    ensures { result ≡ has_variable variables.now name.now }
{
    variables.iter().any(|variable| variable.0.as_str() == name)
}

// The value that a variable of this name has, where it is one of the two.
fn value_for<'a>(settings: &'a CallerSettings, name: &str) -> Option<&'a str>
    ensures { option_copied result ≡ value_for settings.now name.now }
{
    if name == "PWD" {
        return Some(settings.directory.as_str());
    }
    if name == "LOGNAME" {
        return Some(settings.user.as_str());
    }
    None
}
