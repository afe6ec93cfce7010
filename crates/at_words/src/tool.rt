//! The tools, and which of them words name.
ghost use Rattle.std.specs.Prelude.{◌≡◌, ◌≤◌, map, length, string_bytes, IfSome};
ghost use Rattle.at_words.specs.Tools.{last_part, second_tool as second_named, tool_of_name, tool_of_words};

/// One of the programs that read and change a spool, or `atday`, which makes a day of events.
#[derive(Clone, Copy, Debug, PartialEq, Eq)]
pub enum Tool {
    At,
    Batch,
    Atq,
    Atrm,
    Atd,
    Atday,
}

/// The tool that the words name, and the place at which its own words begin. The last part of word 0
/// names it, or else word 1.
pub fn tool_of(words: &[String]) -> Option<(Tool, usize)>
    ensures tool { result ≡ tool_of_words (map string_bytes words.now) }
    ensures some { IfSome result (λ found. 1 ≤ found.1) }
    ensures within { IfSome result (λ found. found.1 ≤ length words.now) }
{
    match words {
        [] => None,
        [first, others @ ..] => match tool_with_name(file_name(first.as_bytes())) {
            Some(tool) => Some((tool, 1)),
            None => second_tool(others),
        },
    }
}

// The tool that the second word names, by the words from the second on.
fn second_tool(words: &[String]) -> Option<(Tool, usize)>
    ensures { result ≡ second_named (map string_bytes words.now) }
{
    let word = words.first()?;
    Some((tool_with_name(word.as_bytes())?, 2))
}

// The part of a word after its last slash.
fn file_name(word: &[u8]) -> &[u8]
    ensures { result.now ≡ last_part word.now }
{
    let mut start = 0;
    for (place, byte) in word.iter().enumerate() {
        if *byte == b'/' {
            start = place + 1;
        }
    }
    &word[start..]
}

#[tactic(auto, unfolding(crate::specs::Tools::tool_of_name))]
fn tool_with_name(name: &[u8]) -> Option<Tool>
    ensures { result ≡ tool_of_name name.now }
{
    if name == b"at".as_slice() {
        Some(Tool::At)
    } else if name == b"batch".as_slice() {
        Some(Tool::Batch)
    } else if name == b"atq".as_slice() {
        Some(Tool::Atq)
    } else if name == b"atrm".as_slice() {
        Some(Tool::Atrm)
    } else if name == b"atd".as_slice() {
        Some(Tool::Atd)
    } else if name == b"atday".as_slice() {
        Some(Tool::Atday)
    } else {
        None
    }
}
