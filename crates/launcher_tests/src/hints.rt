//! What the tools say of themselves.
use caller_environment::ToolName;
use listing_text::{Cause, Refusal};
use std::test::Fail;
use tool_help::{
    Hint, ListsFound, access_hint, help_text, hint_line, hint_of, is_record_of, version_text,
};

const RECORD: &[u8] =
    b"sha256 1b2c\ncommit 0123456789abcdef0123456789abcdef01234567\ntoolchain rattle-kit-13f\n";

#[test]
fn versions(rt: HostRuntime) -> Result<(), Fail> {
    let cases: [(Option<&[u8]>, &[u8]); 5] = [
        (None, b"at (Coefhird) 0.1\nnot proved\n"),
        (
            Some(RECORD),
            b"at (Coefhird) 0.1\ncommit 0123456789ab, proved with rattle-kit-13f\n",
        ),
        (
            Some(b"commit unknown\ntoolchain k\n"),
            b"at (Coefhird) 0.1\ncommit unknown, proved with k\n",
        ),
        (
            Some(b"commit 0123456789abcdef, changed\ntoolchain k"),
            b"at (Coefhird) 0.1\ncommit 0123456789ab, changed, proved with k\n",
        ),
        (
            Some(b"sha256 1b2c\ncommit 0123\n"),
            b"at (Coefhird) 0.1\nnot proved\n",
        ),
    ];
    for (record, text) in cases {
        let made = version_text(rt.alloc(), ToolName::At, record)?;
        assert_eq!(rt; made.as_slice(), text);
    }
    assert!(rt; is_record_of(RECORD, b"1b2c"));
    assert!(rt; !is_record_of(RECORD, b"1b2"));
    Ok(())
}

#[test]
fn hints(rt: HostRuntime) -> Result<(), Fail> {
    let alloc = rt.alloc();
    assert_eq!(rt; hint_of(&Cause::Done), None);
    assert_eq!(rt; hint_of(&Cause::Busy), Some(Hint::Lock));
    assert_eq!(rt; hint_of(&Cause::Refused(Refusal::Usage)), Some(Hint::Help));
    let hint = access_hint(alloc, "mary", "/etc", ListsFound::Deny)?;
    let line = hint_line(alloc, ToolName::Atq, hint.as_str())?;
    assert_eq!(rt;
        line.as_str(),
        "atq: the name mary stands in /etc/at.deny\n"
    );
    assert!(rt; help_text(ToolName::Atrm).ends_with("\nman 1 atrm\n"));
    Ok(())
}
