//! Which tool the words of a process name, and the variables of its jobs.
use caller_environment::{CallerSettings, job_variables, take_tool};
use host_calls::{Bytes, Text};
use job_script::{Context, Variables, write};
use std::alloc::{AllocError, Global};
use std::test::Fail;

// The words of a line, which bars separate.
fn words_of(alloc: Global, line: &str) -> Result<Vec<String>, AllocError> {
    let mut words = Vec::new(alloc);
    for word in line.split('|') {
        words.push(String::from_str(alloc, word)?)?;
    }
    Ok(words)
}

#[test]
fn tools(rt: HostRuntime) -> Result<(), Fail> {
    let cases = [
        ("at|now", "at", 2),
        ("/usr/bin/batch", "batch", 1),
        ("coefhird|atq|-l", "atq", 2),
        ("./x/atcheck|at", "atcheck", 2),
        ("x|/usr/bin/at", "none", 2),
        ("/bin/at/", "none", 1),
        ("coefhird|atstat|1", "atstat", 2),
        ("coefhird|atcheck", "atcheck", 1),
        ("atpost|atcron", "atpost", 2),
        ("coefhird", "none", 1),
    ];
    for (line, name, count) in cases {
        let mut words = words_of(rt.alloc(), line)?;
        let tool = take_tool(&mut words);
        assert_eq!(rt; tool.map_or("none", |tool| tool.as_str()), name, "{line}");
        assert_eq!(rt; words.len(), count, "{line}");
    }
    Ok(())
}

// The variables of a line, which bars separate.
fn variables_of(alloc: Global, line: &str) -> Result<Vec<(Text, Text)>, AllocError> {
    let mut variables = Vec::new(alloc);
    for entry in line.split('|') {
        if let Some((name, value)) = entry.split_once('=') {
            variables.push((Text::of(alloc, name)?, Text::of(alloc, value)?))?;
        }
    }
    Ok(variables)
}

// The text of a job of mary's in /d whose caller had these variables.
fn job_of(alloc: Global, line: &str, zone: Option<&str>) -> Result<Bytes, Fail> {
    let settings = CallerSettings {
        directory: Text::of(alloc, "/d")?,
        user: Text::of(alloc, "mary")?,
        zone: match zone {
            Some(zone) => Some(Text::of(alloc, zone)?),
            None => None,
        },
    };
    let variables = variables_of(alloc, line)?;
    let context = Context {
        user: Text::of(alloc, "mary")?,
        directory: Text::of(alloc, "/d")?,
        umask: 18,
        environment: job_variables(alloc, variables.as_slice(), &settings)?,
    };
    Ok(
        write(alloc, &context, false, b"echo hi\n")
            .ok()
            .ok_or("refused")?,
    )
}

// The text of the same job with exactly these variables.
fn plain_job(alloc: Global, line: &str) -> Result<Bytes, Fail> {
    let mut environment = Variables::new(alloc);
    for (name, value) in &variables_of(alloc, line)? {
        environment.push(alloc, name.as_str(), value.as_str())?;
    }
    let context = Context {
        user: Text::of(alloc, "mary")?,
        directory: Text::of(alloc, "/d")?,
        umask: 18,
        environment,
    };
    Ok(
        write(alloc, &context, false, b"echo hi\n")
            .ok()
            .ok_or("refused")?,
    )
}

#[test]
fn variables(rt: HostRuntime) -> Result<(), Fail> {
    let cases = [
        (
            "A=1|PWD=/x|B=2|PWD=/y",
            None,
            "A=1|PWD=/d|B=2|PWD=/d|LOGNAME=mary",
        ),
        (
            "LOGNAME=root|TZ=Europe/Berlin",
            Some("CET-1"),
            "LOGNAME=mary|TZ=Europe/Berlin|PWD=/d",
        ),
        (
            "TZ=Europe/Berlin",
            None,
            "TZ=Europe/Berlin|PWD=/d|LOGNAME=mary",
        ),
        (
            "PWDX=1|LOGNAME=|OLDPWD=/o",
            Some("UTC0"),
            "PWDX=1|LOGNAME=mary|OLDPWD=/o|PWD=/d",
        ),
    ];
    for (line, zone, wanted) in cases {
        let alloc = rt.alloc();
        let job = job_of(alloc, line, zone)?;
        let same = plain_job(alloc, wanted)?;
        assert_eq!(rt; job.as_slice(), same.as_slice(), "{line}");
    }
    Ok(())
}
