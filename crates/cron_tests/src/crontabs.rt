//! Texts of crontabs, their entries and their bad lines.
use crate::readings::read;
use cron_text::{CronEntry, CronFault, Field};
use std::test::Fail;

#[test]
fn texts_with_a_bad_line(rt: HostRuntime) -> Result<(), Fail> {
    let cases: [(&str, u32); 30] = [
        ("60 * * * * x", 1),
        ("* 24 * * * x", 1),
        ("* * 0 * * x", 1),
        ("* * 32 * * x", 1),
        ("* * * 0 * x", 1),
        ("* * * 13 * x", 1),
        ("* * * * 7 x", 1),
        ("5-1 * * * * x", 1),
        ("0-60 * * * * x", 1),
        ("1-2-3 * * * * x", 1),
        ("1- * * * * x", 1),
        ("-1 * * * * x", 1),
        ("1, * * * * x", 1),
        (",1 * * * * x", 1),
        ("1,*,2 * * * * x", 1),
        ("** * * * * x", 1),
        ("001 * * * * x", 1),
        ("+1 * * * * x", 1),
        ("* * * jan * x", 1),
        ("* * * * mon x", 1),
        ("*/5 * * * * x", 1),
        ("0-30/5 * * * * x", 1),
        ("@daily x", 1),
        ("MAILTO=x", 1),
        ("* * * * x", 1),
        ("* * * * *", 1),
        ("* * * * * \t\n", 1),
        ("* * * * * x\0y\n", 1),
        ("\n# a\n \t\n* * * * * x\n24 24 * * * y\nz", 5),
        ("* * * * * x\r\n\r\n", 2),
    ];
    for (text, line) in cases {
        let fault = read(&rt, rt.alloc(), text.as_bytes()).err();
        assert_eq!(rt; fault, Some(CronFault::Bad { line }), "{text}");
    }
    Ok(())
}

#[test]
fn texts_without_one(rt: HostRuntime) -> Result<(), Fail> {
    let cases: [(&str, usize); 10] = [
        ("", 0),
        ("\n", 0),
        (" \t\n\n", 0),
        ("  # a", 0),
        ("# a\0b\n#\n", 0),
        ("# a\n30 8 * * 1-5 run", 1),
        (" \t30 8 * * 1-5 run\n", 1),
        ("*\t*  *\t * * x", 1),
        ("0,59 0,23 1,31 1,12 0,6 x\n", 1),
        ("* * * * * x\n#\n\n* * * * * y", 2),
    ];
    for (text, count) in cases {
        let entries = read(&rt, rt.alloc(), text.as_bytes())?;
        assert_eq!(rt; entries.as_slice().len(), count, "{text}");
    }
    Ok(())
}

fn listed(bits: u64) -> Field {
    Field { star: false, bits }
}

fn any(bits: u64) -> Field {
    Field { star: true, bits }
}

fn fields(entry: &CronEntry) -> [Field; 5] {
    [
        entry.minute,
        entry.hour,
        entry.day,
        entry.month,
        entry.weekday,
    ]
}

#[test]
fn fields_of_an_entry(rt: HostRuntime) -> Result<(), Fail> {
    let entries = read(&rt, rt.alloc(), b"# a\n30 8 * * 1-3,05 run it \r\n")?;
    let entry = entries.as_slice().first().ok_or("no entry")?;
    let wanted = [
        listed(1_073_741_824),
        listed(256),
        any(4_294_967_294),
        any(8_190),
        listed(46),
    ];
    assert_eq!(rt; fields(entry), wanted);
    assert_eq!(rt; entry.command.as_slice(), b"run it \r".as_slice());
    Ok(())
}

#[test]
fn greatest_fields(rt: HostRuntime) -> Result<(), Fail> {
    let entries = read(&rt, rt.alloc(), b"59 0-23 1-31 1-12 0-6  * a")?;
    let entry = entries.as_slice().first().ok_or("no entry")?;
    let wanted = [
        listed(576_460_752_303_423_488),
        listed(16_777_215),
        listed(4_294_967_294),
        listed(8_190),
        listed(127),
    ];
    assert_eq!(rt; fields(entry), wanted);
    assert_eq!(rt; entry.command.as_slice(), b"* a".as_slice());
    Ok(())
}

#[test]
fn all_minutes(rt: HostRuntime) -> Result<(), Fail> {
    for &(text, field) in &[
        (b"0-59 * * * * a", listed(1_152_921_504_606_846_975)),
        (b"*    * * * * a", any(1_152_921_504_606_846_975)),
    ] {
        let entries = read(&rt, rt.alloc(), text)?;
        let entry = entries.as_slice().first().ok_or("no entry")?;
        assert_eq!(rt; entry.minute, field);
    }
    Ok(())
}
