//! Which tool the words of a process name.
ghost use Rattle.std.specs.Prelude.{◌≡◌, map, string_bytes};
ghost use Rattle.caller_environment.specs.Tools.{first_tool, own_words, second_tool_name, tool_name_of_words};

use crate::ToolName;
use crate::fields::part_after_last;
use crate::tool_name::tool_named;

/// The tool that the words name: by the last part of word 0, or else by word 1. Then word 0 is removed, so that the first
/// word is the tool in each case. The words stay as they are where neither is a tool.
pub fn take_tool(words: &mut Vec<String>) -> Option<ToolName>
    ensures tool { result ≡ tool_name_of_words (map string_bytes words.old.items) }
    ensures words { map string_bytes words.new.items ≡ own_words (map string_bytes words.old.items) }
{
    if let Some(tool) = first_tool(words.as_slice()) {
        return Some(tool);
    }
    let tool = second_tool_name(words.as_slice())?;
    words.remove(0);
    Some(tool)
}

// The tool that the last part of word 0 names.
fn first_tool(words: &[String]) -> Option<ToolName>
    ensures { result ≡ first_tool (map string_bytes words.now) }
{
    match words {
        [] => None,
        [word, ..] => tool_named(part_after_last(word.as_bytes(), b'/')),
    }
}

// The tool that word 1 names.
fn second_tool_name(words: &[String]) -> Option<ToolName>
    ensures { result ≡ second_tool_name (map string_bytes words.now) }
{
    match words {
        [_, word, ..] => tool_named(word.as_bytes()),
        _ => None,
    }
}
