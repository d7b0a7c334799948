// Reads a sheet of codes in every damaged form and prints what the reader answers, to be compared with what is expected.
#![tactic(auto)]

use control::table::{DISPLAYS, OWNERS, STEPS};
use display::code::Code;
use sheet::reader::read;
use std::io::Read;
use theory::limits::MOST_SHEET_BYTES;

fn print_answer(rt: &HostRuntime, sheet: &[u8]) -> anyhow::Result<()> {
    let mut steps = [0; STEPS];
    let mut owners = [0; OWNERS];
    let mut codes = [0; DISPLAYS];
    match read::<Code>(sheet, &mut steps, &mut owners, &mut codes) {
        Ok(_) => rt.println("accepted")?,
        Err(refusal) => rt.println(refusal.told())?,
    }
    Ok(())
}

// The sheet cut at every byte.
fn print_cuts(rt: &HostRuntime, sheet: &[u8]) -> anyhow::Result<()> {
    for end in 0..=sheet.len() {
        print!(rt; "cut {end}: ")?;
        print_answer(rt, &sheet[..end])?;
    }
    Ok(())
}

// A blank, a newline, a digit and a letter in the place of one byte.
fn print_changes(rt: &HostRuntime, sheet: &mut [u8], at: usize) -> anyhow::Result<()> {
    if at >= sheet.len() {
        return Ok(());
    }
    // the byte is put back, so that the whole sheet is at hand at each change: no iterator lends both
    let old = sheet[at];
    for byte in [b' ', b'\n', b'7', b'x'] {
        sheet[at] = byte;
        print!(rt; "byte {at} {byte}: ")?;
        print_answer(rt, sheet)?;
    }
    sheet[at] = old;
    Ok(())
}

fn run(rt: &HostRuntime) -> anyhow::Result<()> {
    let mut sheet = Vec::new(rt.alloc());
    rt.stdin()
        .take(MOST_SHEET_BYTES as u64)
        .read_to_end(&mut sheet)?;
    print_cuts(rt, sheet.as_slice())?;
    for at in 0..sheet.len() {
        print_changes(rt, sheet.as_mut_slice(), at)?;
    }
    Ok(())
}

fn main(rt: HostRuntime) -> anyhow::Result<()> {
    run(&rt)
}
