//! The spool that a tool works on.
ghost use Rattle.std.specs.Prelude.{◌≡◌, IfOk, unwrap_or};
ghost use Rattle.caller_rules.specs.ToolSpools.{FindsPlace, IsCallersSpool, IsPlaceUsed, IsPlaceChosen, IsVariableOr};

use crate::file_status::{is_directory_there, is_directory_there_of};
use crate::user::CallingUser;
use caller_environment::{MeantSpool, SpoolSources, meant_spool};
use host_calls::Text;
use std::alloc::{AllocError, Global};
use system_calls::System;

/// The spool that a tool works on.
#[derive(Drop)]
pub struct ToolSpool {
    pub path: Text,
    /// Whether it is the caller's own: neither a word nor `ATSPOOL` names it.
    pub is_own: bool,
}

/// The spool of this caller where no word names one.
pub fn callers_spool<S: System>(
    system: &mut S,
    alloc: Global,
    user: &CallingUser,
) -> Result<ToolSpool, AllocError>
    /// The caller's spool is the one that is meant. Below a home directory a former place is used if it is a directory of the
    /// caller's and the usual place is absent.
    ensures { IfOk result (IsCallersSpool user.now (S.trace system.old) (S.trace system.new)) }
{
    let named = variable_or_empty(system, alloc, "ATSPOOL")?;
    let state = variable_or_empty(system, alloc, "XDG_STATE_HOME")?;
    let is_own = named.as_str().is_empty();
    let sources = SpoolSources {
        named,
        is_root: user.is_root(),
        user: Text::of(alloc, user.name.as_str())?,
        home: copied_text(alloc, &user.home)?,
        state,
    };
    let meant = meant_spool(alloc, &sources)?;
    let path = chosen_place(system, meant, user.number);
    Ok(ToolSpool { path, is_own })
}

fn copied_text(alloc: Global, text: &Option<Text>) -> Result<Option<Text>, AllocError>
    ensures { IfOk result (λ made. made ≡ text.now) }
{
    match text {
        Some(text) => Ok(Some(Text::of(alloc, text.as_str())?)),
        None => Ok(None),
    }
}

// The value of a variable; empty where it is absent.
fn variable_or_empty<S: System>(
    system: &mut S,
    alloc: Global,
    name: &str,
) -> Result<Text, AllocError>
    ensures { IfOk result (IsVariableOr name.now (S.trace system.old) (S.trace system.new)) }
{
    match system.variable(name)? {
        Some(value) => Ok(value),
        None => Ok(Text::of(alloc, "")?),
    }
}

fn chosen_place<S: System>(system: &mut S, meant: MeantSpool, user: Option<u32>) -> Text
    ensures { IsPlaceChosen meant user (S.trace system.old) (S.trace system.new) result }
{
    match meant {
        MeantSpool::Fixed(path) => path,
        MeantSpool::Home { usual, former } => used_place(system, usual, former, user.unwrap_or(0)),
    }
}

// The usual place, unless it is absent and one of those before has a spool of the user's.
fn used_place<S: System>(system: &mut S, usual: Text, former: Vec<Text>, user: u32) -> Text
    ensures { IsPlaceUsed usual former.items user (S.trace system.old) (S.trace system.new) result }
{
    if is_directory_there(system, usual.as_str()) {
        return usual;
    }
    first_place(system, former, user).unwrap_or(usual)
}

// The first of these places that has a directory of the user's.
fn first_place<S: System>(system: &mut S, places: Vec<Text>, user: u32) -> Option<Text>
    ensures { FindsPlace user places.items (S.trace system.old) (S.trace system.new) result }
{
    let mut rest = places;
    while !rest.is_empty() {
        let place = rest.remove(0);
        if is_directory_there_of(system, place.as_str(), user) {
            return Some(place);
        }
    }
    None
}
