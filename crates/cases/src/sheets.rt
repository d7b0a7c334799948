// Sheets read and written back, and refusals told with their place.
use crate::store::Codes;
use control::table::{Counts, DISPLAYS, OWNERS, STEPS};
use display::code::Code;
use policy::board::Board;
use policy::refusal::Refusal;
use sheet::found::Found;
use sheet::reader::read;
use sheet::writer::write;
use std::test::Fail;

// All of the latch's sheet but its flows.
const BEFORE_FLOWS: &[u8] = b"states commands consoles start display
3 2 3 0 code
command console
0 0
1 1
state command next
0 0 1
0 1 0
1 0 1
1 1 2
2 0 2
2 1 2
state console display
0 0 0
0 1 0
0 2 0
1 0 0
1 1 0
1 2 0
2 0 0
2 1 0
2 2 1
from to
";

const SMALLEST: &[u8] = b"states commands consoles start display
1 1 1 0 code
command console
0 0
state command next
0 0 0
state console display
0 0 65535
from to
";

fn read_codes(sheet: &[u8]) -> Result<Found, Refusal> {
    let mut store = Codes::blank();
    read::<Code>(
        sheet,
        &mut store.steps,
        &mut store.owners,
        &mut store.displays,
    )
}

// Reads a sheet of codes, and writes what was read again.
fn comes_back(sheet: &[u8], out: &mut [u8]) -> Result<usize, Refusal> {
    let mut store = Codes::blank();
    let found = read::<Code>(
        sheet,
        &mut store.steps,
        &mut store.owners,
        &mut store.displays,
    )?;
    let table = store.table(found.counts, found.start)?;
    write(&table, &found.board, out)
}

#[test]
fn the_smallest_sheet_comes_back(rt: HostRuntime) -> Result<(), Fail> {
    let mut out = [0; 200];
    let length = comes_back(SMALLEST, &mut out)?;
    assert_eq!(rt; length, SMALLEST.len());
    assert!(rt; length <= 200);
    assert!(rt; &out[0..length] == SMALLEST);
    Ok(())
}

#[test]
fn the_largest_sheet_comes_back(rt: HostRuntime) -> Result<(), Fail> {
    let store = Codes {
        steps: [99; STEPS],
        owners: [11; OWNERS],
        displays: [65535; DISPLAYS],
    };
    let counts = Counts {
        states: 100,
        commands: 24,
        consoles: 12,
    };
    let table = store.table(counts, 99)?;
    let mut board = Board::bare(12, 24)?;
    for from in 0..12 {
        for to in 0..12 {
            board.allow(from, to)?;
        }
    }
    let mut sheet = [0; 40960];
    let length = write(&table, &board, &mut sheet)?;
    assert!(rt; length <= 40960);
    let mut again = [0; 40960];
    assert_eq!(rt; comes_back(&sheet[0..length], &mut again), Ok(length));
    assert!(rt; sheet == again);
    Ok(())
}

#[test]
fn length_and_store_are_looked_at_first(rt: HostRuntime) {
    let long = [b'7'; 40961];
    let mut steps = [0; 2400];
    let mut owners = [0; 24];
    let mut codes = [0; 1199];
    let refused = match read::<Code>(&long, &mut steps, &mut owners, &mut codes) {
        Ok(_) => Refusal::SelfFlow,
        Err(refusal) => refusal,
    };
    assert_eq!(rt; refused, Refusal::SheetTooLong);
    let refused = match read::<Code>(&long[0..40960], &mut steps, &mut owners, &mut codes) {
        Ok(_) => Refusal::SelfFlow,
        Err(refusal) => refusal,
    };
    assert_eq!(rt; refused, Refusal::TableStoreTooSmall);
}

#[test]
fn flows_are_ascending_rows_to_the_end(rt: HostRuntime) -> Result<(), Fail> {
    let faults: [(&[u8], usize, usize, usize); 7] = [
        (b"1 1\n", 4, 215, 24),
        (b"1 1", 6, 218, 24),
        (b"1 1 ", 4, 218, 24),
        (b"1 2\n0 1\n", 4, 219, 25),
        (b"0 1\n0 1\n", 4, 219, 25),
        (b"0 1\n0 1", 6, 222, 25),
        (b"0 3\n", 5, 217, 24),
    ];
    for (rows, number, place, line) in faults {
        let mut sheet = Vec::new(rt.alloc());
        sheet.extend_from_slice(BEFORE_FLOWS)?;
        sheet.extend_from_slice(rows)?;
        let told = match read_codes(sheet.as_slice()) {
            Ok(_) => return Err(Fail::new("a wrong row was taken")),
            Err(refusal) => refusal.told(),
        };
        assert_eq!(rt; told.number, number);
        assert_eq!(rt; told.place, place);
        assert_eq!(rt; told.line, line);
        assert_eq!(rt; told.block, 5);
    }
    assert!(rt; read_codes(BEFORE_FLOWS).is_ok());
    Ok(())
}
