//! Files of zones and places of spools.
use caller_environment::{MeantSpool, SpoolSources, may_use_machine, meant_spool, zone_file};
use host_calls::Text;
use spool_model::UserName;
use std::alloc::{AllocError, Global};
use std::test::Fail;

#[test]
fn zone_files(rt: HostRuntime) -> Result<(), Fail> {
    let cases = [
        (None, None, "/etc/localtime"),
        (
            Some("Europe/Berlin"),
            None,
            "/usr/share/zoneinfo/Europe/Berlin",
        ),
        (
            Some(":Europe/Berlin"),
            Some(""),
            "/usr/share/zoneinfo/Europe/Berlin",
        ),
        (Some("EST5"), Some("/zones"), "/zones/EST5"),
        (Some(":/etc/zone"), Some("/zones"), "/etc/zone"),
        (Some("Etc/GMT-0"), None, "/usr/share/zoneinfo/Etc/GMT-0"),
        (Some("Etc/GMT+1"), None, "/usr/share/zoneinfo/Etc/GMT+1"),
        (Some("utc"), None, "/usr/share/zoneinfo/utc"),
        (Some("UTC"), None, "kept"),
        (Some(":Etc/UTC"), None, "kept"),
        (Some("GMT"), Some("/zones"), "kept"),
        (Some("Zulu"), None, "kept"),
        (Some(""), None, "kept"),
        (Some("CET-1CEST,M3.5.0,M10.5.0/3"), None, "kept"),
        (Some("<+03>-3"), None, "kept"),
    ];
    for (zone, directory, file) in cases {
        let found = zone_file(rt.alloc(), zone, directory)?;
        let found = match &found {
            Some(found) => found.as_str(),
            None => "kept",
        };
        assert_eq!(rt; found, file, "{zone:?}");
    }
    Ok(())
}

fn shown(alloc: Global, meant: &MeantSpool) -> Result<String, AllocError> {
    match meant {
        MeantSpool::Fixed(place) => format!(in alloc; "{}", place.as_str()),
        MeantSpool::Home { usual, former } => {
            let mut line = String::from_str(alloc, usual.as_str())?;
            for place in former {
                line.push_str("|")?;
                line.push_str(place.as_str())?;
            }
            Ok(line)
        }
    }
}

#[test]
fn spools(rt: HostRuntime) -> Result<(), Fail> {
    let alloc = rt.alloc();
    let cases = [
        ("/s", true, "/root", "", "/s"),
        ("", true, "/root", "", "/var/spool/atjobs"),
        ("", false, "none", "/state", "/var/spool/coefhird/mary"),
        (
            "",
            false,
            "/h",
            "",
            "/h/.local/state/coefhird/jobs|/h/.config/coefhird/jobs",
        ),
        (
            "",
            false,
            "/h",
            "/t",
            "/h/.local/state/coefhird/jobs|/t/coefhird/jobs|/h/.config/coefhird/jobs",
        ),
    ];
    for (named, is_root, home, state, places) in cases {
        let sources = SpoolSources {
            named: Text::of(alloc, named)?,
            is_root,
            user: Text::of(alloc, "mary")?,
            home: match home {
                "none" => None,
                _ => Some(Text::of(alloc, home)?),
            },
            state: Text::of(alloc, state)?,
        };
        let meant = meant_spool(alloc, &sources)?;
        assert_eq!(rt; shown(alloc, &meant)?.as_str(), places);
    }
    Ok(())
}

#[test]
fn machine_lists(rt: HostRuntime) -> Result<(), Fail> {
    let cases: [(&[u8], Option<&[u8]>, Option<&[u8]>, bool); 7] = [
        (b"mary", None, None, true),
        (b"mary", Some(b"root\nmary\n"), Some(b"mary\n"), true),
        (b"mary", Some(b""), None, false),
        (b"root", Some(b""), None, true),
        (b"mary", None, Some(b"www-data\nmary\n"), false),
        (b"mary", None, Some(b"www-data\nmary2\n"), true),
        (b"mary", None, Some(b""), true),
    ];
    for (name, allow, deny, may) in cases {
        let user = UserName::of(name).ok_or("no name")?;
        assert_eq!(rt;
            may_use_machine(&user, allow, deny),
            may,
            "{name:?} {deny:?}"
        );
    }
    Ok(())
}
