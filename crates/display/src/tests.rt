// What codes and readings are written as, and what runs are read as.
use crate::code::Code;
use crate::kind::DisplayKind;
use crate::reading::Reading;
use mark::cause::Cause;
use std::process::Abort;
use std::test::Fail;

// The display is written as `text`, and that is read as the display again.
fn comes_back<K: DisplayKind>(rt: &impl Abort, display: K, text: &[u8]) -> Result<(), Fail> {
    let mark = display.mark();
    assert!(rt; mark.text() == text);
    assert!(rt; K::read(text)? == display);
    Ok(())
}

fn refused<K: DisplayKind>(rt: &impl Abort, run: &[u8], cause: Cause) -> Result<(), Fail> {
    match K::read(run) {
        Ok(_) => Err(Fail::new("this run is read")),
        Err(found) => {
            assert_eq!(rt; found, cause);
            Ok(())
        },
    }
}

#[test]
fn codes_come_back(rt: HostRuntime) -> Result<(), Fail> {
    let table: [(u16, &[u8]); 4] = [(0, b"0"), (7, b"7"), (10, b"10"), (65535, b"65535")];
    for (number, text) in table {
        comes_back(&rt, Code::from_cell(number), text)?;
    }
    Ok(())
}

#[test]
fn no_codes(rt: HostRuntime) -> Result<(), Fail> {
    let table: [(&[u8], Cause); 8] = [
        (b"07", Cause::NoMark),
        (b"", Cause::NoMark),
        (b"65536", Cause::OutOfRange),
        (b"-1", Cause::OutOfRange),
        (b"abc", Cause::NotDue),
        (b"123456", Cause::NoMark),
        (b"-0", Cause::NoMark),
        (b"Code", Cause::NoMark),
    ];
    for (run, cause) in table {
        refused::<Code>(&rt, run, cause)?;
    }
    Ok(())
}

#[test]
fn readings_come_back(rt: HostRuntime) -> Result<(), Fail> {
    let table: [(Option<i16>, &[u8]); 8] = [
        (None, b"none"),
        (Some(0), b"0"),
        (Some(-1), b"-1"),
        (Some(-1200), b"-1200"),
        (Some(1200), b"1200"),
        // out of range, so read as 0 tenths
        (Some(1201), b"0"),
        (Some(-1201), b"0"),
        (Some(-32768), b"0"),
    ];
    for (entry, text) in table {
        comes_back(&rt, Reading::from_cell(entry), text)?;
    }
    Ok(())
}

#[test]
fn no_readings(rt: HostRuntime) -> Result<(), Fail> {
    let table: [(&[u8], Cause); 3] = [
        (b"1201", Cause::OutOfRange),
        (b"-1201", Cause::OutOfRange),
        (b"nine", Cause::NotDue),
    ];
    for (run, cause) in table {
        refused::<Reading>(&rt, run, cause)?;
    }
    Ok(())
}

#[test]
fn none_is_not_zero(rt: HostRuntime) {
    assert!(rt; Reading::from_cell(None) != Reading::zero());
}
