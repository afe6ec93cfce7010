//! Lines of words, and what they request.
use at_words::{Filter, Numbers, Tool, ToolRequest, When, WordsFault, request, tool_of};
use std::alloc::{AllocError, Global};
use std::process::Abort;
use std::test::Fail;

// The words of a line, which bars part.
fn words_of(alloc: Global, line: &str) -> Result<Vec<String>, AllocError> {
    let mut words = Vec::new(alloc);
    for word in line.split('|') {
        words.push(String::from_str(alloc, word)?)?;
    }
    Ok(words)
}

fn numbers_shown(alloc: Global, numbers: &Numbers) -> Result<String, AllocError> {
    format!(in alloc; "{:?}", numbers.as_slice())
}

fn filter_shown(alloc: Global, filter: &Filter) -> Result<String, AllocError> {
    match filter {
        Filter::All => format!(in alloc; "list all"),
        Filter::Queue(letter) => format!(in alloc; "list letter {letter}"),
        Filter::Numbers(numbers) => {
            let numbers = numbers_shown(alloc, numbers)?;
            format!(in alloc; "list {numbers}")
        }
    }
}

fn when_shown(alloc: Global, when: &When) -> Result<String, AllocError> {
    match when {
        When::Spec(text) => format!(in alloc; "spec {}", text.as_str()),
        When::Touch(text) => format!(in alloc; "touch {}", text.as_str()),
    }
}

fn request_shown(alloc: Global, request: &ToolRequest) -> Result<String, AllocError> {
    match request {
        ToolRequest::Submit {
            queue,
            mail,
            file,
            when,
        } => {
            let when = when_shown(alloc, when)?;
            let file = match file {
                Some(file) => file.as_str(),
                None => "none",
            };
            format!(in alloc; "submit {queue} mail {mail} file {file} {when}")
        }
        ToolRequest::List(filter) => filter_shown(alloc, filter),
        ToolRequest::Remove(numbers) => {
            let numbers = numbers_shown(alloc, numbers)?;
            format!(in alloc; "remove {numbers}")
        }
        ToolRequest::Show(numbers) => {
            let numbers = numbers_shown(alloc, numbers)?;
            format!(in alloc; "show {numbers}")
        }
        ToolRequest::Daemon {
            limit,
            interval,
            once,
            turns,
        } => format!(in alloc; "daemon {limit} {interval} {once} {turns}"),
        ToolRequest::Make(events) => format!(in alloc; "make {events}"),
    }
}

fn line_shown(alloc: Global, line: &str) -> Result<String, AllocError> {
    let words = words_of(alloc, line)?;
    match request(alloc, words.as_slice()) {
        Ok(asked) => request_shown(alloc, &asked),
        Err(WordsFault::Usage) => format!(in alloc; "usage"),
        Err(WordsFault::BadQueue) => format!(in alloc; "bad queue"),
        Err(WordsFault::Memory) => format!(in alloc; "memory"),
    }
}

static DAEMONS: [(&str, &str); 10] = [
    ("atd", "daemon 150 60 false 4611686018427387904"),
    ("atd|-l|2|-b|0|-s", "daemon 200 0 true 4611686018427387904"),
    (
        "atd|-b|999999999",
        "daemon 150 999999999 false 4611686018427387904",
    ),
    ("atd|-b|1000000000", "usage"),
    ("atd|-l|1.5", "daemon 150 60 false 4611686018427387904"),
    (
        "atd|-l|999999.09",
        "daemon 99999909 60 false 4611686018427387904",
    ),
    ("atd|--turns|1", "daemon 150 60 false 1"),
    (
        "atd|--turns=4611686018427387904",
        "daemon 150 60 false 4611686018427387904",
    ),
    ("atday|--make|1", "make 1"),
    ("atday|--make|2000", "make 2000"),
];

static ASKED: [(&str, &str); 23] = [
    ("at|now", "submit 97 mail false file none spec now"),
    (
        "at|-m|-f|x|-q|c|noon|jan 24",
        "submit 99 mail true file x spec noon jan 24",
    ),
    (
        "at|noon|-qB|tomorrow",
        "submit 66 mail false file none spec noon tomorrow",
    ),
    (
        "at|-t|02290000|-m",
        "submit 97 mail true file none touch 02290000",
    ),
    ("at|--|-l", "submit 97 mail false file none spec -l"),
    ("at|", "submit 97 mail false file none spec "),
    ("at|-l", "list all"),
    ("at|-l|4|4|2", "list [4, 2]"),
    ("at|-l|-q==", "list letter 61"),
    ("at|-r|4|0000000002", "remove [4, 2]"),
    ("at|-c|1|-r", "usage"),
    ("at|-c|1|1|4294967295", "show [1, 4294967295]"),
    ("batch", "submit 98 mail true file none spec now"),
    (
        "batch|-f|job.sh",
        "submit 98 mail true file job.sh spec now",
    ),
    ("atq", "list all"),
    ("atq|-q|=", "list letter 61"),
    ("atrm|4|4", "remove [4]"),
    ("/usr/bin/atrm|7", "remove [7]"),
    ("at_tool|atq|-qb", "list letter 98"),
    ("at|-q|ab|now", "bad queue"),
    ("at|-q|=|now", "bad queue"),
    ("at|-q=|now", "bad queue"),
    ("atq|-q|ab", "bad queue"),
];

// Whether each line requests what is next to it.
fn assert_asked(rt: &impl Abort, alloc: Global, lines: &[(&str, &str)]) -> Result<(), Fail> {
    for (line, asked) in lines {
        let shown = line_shown(alloc, line)?;
        assert_eq!(rt; shown.as_str(), *asked, "{line}");
    }
    Ok(())
}

#[test]
fn lines_ask_for_what_the_tools_say(rt: HostRuntime) -> Result<(), Fail> {
    assert_asked(&rt, rt.alloc(), &ASKED)
}

#[test]
fn lines_of_the_daemon_and_of_days_ask_for_what_they_say(rt: HostRuntime) -> Result<(), Fail> {
    assert_asked(&rt, rt.alloc(), &DAEMONS)
}

static REFUSED: [&str; 37] = [
    "at",
    "at|-l|-r",
    "at|-l|-m",
    "at|-l|-f|x",
    "at|-l|-t|02290000",
    "at|-l|-q|a|4",
    "at|-l|x",
    "at|-r",
    "at|-r|4|-m",
    "at|-c|-q|a|4",
    "at|-r|12345678901",
    "at|-r|4294967296",
    "at|-r|+4",
    "at|-t|02290000|now",
    "at|-m|-m|now",
    "at|-f|a|-f|b|now",
    "at|now|-f|--",
    "at|--help",
    "at|-V",
    "batch|now",
    "batch|-m",
    "atq|4",
    "atrm",
    "atrm|0",
    "atrm|",
    "atd|-b|x",
    "atd|-b|1234567890",
    "atd|-l|.5",
    "atd|-l|1.",
    "atd|-l|1.234",
    "atd|-l|1234567",
    "atd|--turns|0",
    "atd|--turns|4611686018427387905",
    "atday",
    "atday|--make|0",
    "atday|--make|2001",
    "cron|-l",
];

#[test]
fn other_lines_are_refused(rt: HostRuntime) -> Result<(), Fail> {
    for line in REFUSED {
        let shown = line_shown(rt.alloc(), line)?;
        assert_eq!(rt; shown.as_str(), "usage", "{line}");
    }
    Ok(())
}

#[test]
fn the_first_word_names_the_tool_before_the_second(rt: HostRuntime) -> Result<(), Fail> {
    for &(line, tool) in &[
        ("/bin/at|atq", Some((Tool::At, 1))),
        ("./at_tool|atd", Some((Tool::Atd, 2))),
        ("at/|batch|x", Some((Tool::Batch, 2))),
        ("at_tool|bin/at", None),
        ("", None),
    ] {
        let words = words_of(rt.alloc(), line)?;
        assert_eq!(rt; tool_of(words.as_slice()), tool, "{line}");
    }
    Ok(())
}
