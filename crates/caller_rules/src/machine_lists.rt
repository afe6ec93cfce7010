//! The lists of the machine: who may use at on it.
ghost use Rattle.std.specs.Prelude.{◌≡◌, IfOk, OnOk, option_copied, string_bytes};
ghost use Rattle.caller_rules.specs.MachineLists.{IsListFound, IsPermitted, IsPublishedList, IsWarnedOf, LetsUser, PermitsName, ignored_line, list_of_copy};

use crate::file_status::is_directory_status;
use crate::user::CallingUser;
use caller_environment::{ToolName, may_use_machine, row_of_tool};
use host_calls::Bytes;
use spool_model::UserName;
use std::alloc::{AllocError, Global};
use system_calls::{FileRead, System};

/// The directory of the lists.
pub const LISTS: &str = "/etc";

/// A list of more bytes refuses.
pub const LONGEST_LIST: u64 = 4_194_304;

// The list of users who may use at, and that of users who may not.
const ALLOW: &str = "/etc/at.allow";

const DENY: &str = "/etc/at.deny";

// Where root publishes them for those who can't read them.
const PUBLISHED: &str = "/run/coefhird";

const PUBLISHED_ALLOW: &str = "/run/coefhird/at.allow";

const PUBLISHED_DENY: &str = "/run/coefhird/at.deny";

/// A list of the machine, as the caller finds it.
#[derive(Drop)]
pub enum MachineList {
    /// There is none.
    Absent,
    /// Its content, or that of the copy that root published.
    Listed(Bytes),
    /// It is too long, or neither it nor a copy of it can be read where root publishes copies.
    Refusing,
    /// It can't be read, and root publishes no copies: an installation without root.
    Ignored,
}

/// Whether the lists of the machine let this user call the tool. A list that is ignored is named on standard error.
pub fn may_call<S: System>(
    system: &mut S,
    alloc: Global,
    tool: ToolName,
    user: &CallingUser,
) -> Result<bool, AllocError>
    /// A caller other than root is let in by /etc/at.allow, or else by /etc/at.deny, as by the lists of a spool. A list above
    /// 4 MB refuses. For one that the caller can't read the copy in /run/coefhird decides, which must be there; where that
    /// directory is absent the list is ignored, and named on standard error.
    ensures { IfOk result (IsPermitted tool user.now (S.trace system.old) (S.trace system.new)) }
{
    if !row_of_tool(tool).consults_lists || user.is_root() {
        return Ok(true);
    }
    let allow = found_list(system, ALLOW, PUBLISHED_ALLOW);
    let deny = found_list(system, DENY, PUBLISHED_DENY);
    warn_of_list(system, alloc, tool, ALLOW, &allow)?;
    warn_of_list(system, alloc, tool, DENY, &deny)?;
    Ok(lets_user(&allow, &deny, user.name.as_str()))
}

// The list of this path, of which root may have published a copy.
fn found_list<S: System>(system: &mut S, path: &str, copy: &str) -> MachineList
    ensures { IsListFound path.now copy.now (S.trace system.old) (S.trace system.new) result }
{
    match system.read_file(path, LONGEST_LIST) {
        FileRead::Absent => MachineList::Absent,
        FileRead::TooLong => MachineList::Refusing,
        FileRead::Whole(bytes) => MachineList::Listed(bytes),
        FileRead::Unreadable => published_list(system, copy),
    }
}

// The copy of a list that the caller can't read.
fn published_list<S: System>(system: &mut S, copy: &str) -> MachineList
    ensures { IsPublishedList copy.now (S.trace system.old) (S.trace system.new) result }
{
    let directory = system.status(PUBLISHED);
    if !is_directory_status(&directory) {
        return MachineList::Ignored;
    }
    list_of_copy(system.read_file(copy, LONGEST_LIST))
}

fn list_of_copy(read: FileRead) -> MachineList
    ensures { result ≡ list_of_copy read }
{
    match read {
        FileRead::Whole(bytes) => MachineList::Listed(bytes),
        _ => MachineList::Refusing,
    }
}

// Says that a list is ignored, where it is.
fn warn_of_list<S: System>(
    system: &mut S,
    alloc: Global,
    tool: ToolName,
    path: &str,
    list: &MachineList,
) -> Result<(), AllocError>
    ensures { OnOk result (IsWarnedOf tool path.now list.now (S.trace system.old) (S.trace system.new)) }
{
    if !matches!(list, MachineList::Ignored) {
        return Ok(());
    }
    let line = ignored_line(alloc, tool, path)?;
    system.write_error(line.as_str());
    Ok(())
}

fn ignored_line(alloc: Global, tool: ToolName, path: &str) -> Result<String, AllocError>
    ensures { IfOk result (λ line. string_bytes line ≡ ignored_line tool path.now) }
{
    let name = tool.as_str();
    format!(in alloc; "{name}: {path} can not be read, so it excludes nobody\n")
}

// Whether the lists let a user of this name use at.
fn lets_user(allow: &MachineList, deny: &MachineList, name: &str) -> bool
    ensures { LetsUser name.now allow.now deny.now result }
{
    match (allow, deny) {
        (MachineList::Refusing, _) => false,
        (MachineList::Listed(allow), _) => permits_name(name, Some(allow.as_slice()), None),
        (_, MachineList::Refusing) => false,
        (_, MachineList::Listed(deny)) => permits_name(name, None, Some(deny.as_slice())),
        _ => true,
    }
}

// Whether lists of which one exists permit a user of this name.
fn permits_name(name: &str, allow: Option<&[u8]>, deny: Option<&[u8]>) -> bool
    ensures { PermitsName name.now (option_copied allow.entry) (option_copied deny.entry) result }
{
    match UserName::of(name.as_bytes()) {
        Some(name) => may_use_machine(&name, allow, deny),
        None => false,
    }
}
