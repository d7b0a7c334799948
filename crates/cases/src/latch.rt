// The latch: console 0 arms it, console 1 fires it once armed, console 2 watches.
use crate::store::Codes;
use control::replay::replay;
use control::table::{Counts, DISPLAYS, Store, Table};
use display::reading::Reading;
use policy::board::Board;
use policy::refusal::Refusal;
use std::test::Fail;

pub const COUNTS: Counts = Counts {
    states: 3,
    commands: 2,
    consoles: 3,
};

// The latch's steps and owners; every console always shows 0.
pub fn store() -> Codes {
    let mut store = Codes::blank();
    store.steps[0] = 1;
    store.steps[2] = 1;
    store.steps[3] = 2;
    store.steps[4] = 2;
    store.steps[5] = 2;
    store.owners[1] = 1;
    store
}

#[test]
fn armed_then_fired_reaches_the_last_state_with_codes(rt: HostRuntime) -> Result<(), Fail> {
    let mut store = store();
    store.displays[8] = 1;
    let table = store.table(COUNTS, 0)?;
    let board = Board::bare(3, 2)?;
    assert_eq!(rt; replay(&board, &table, &[0, 1]), Ok(2));
    assert_eq!(rt; replay(&board, &table, &[1, 0]), Ok(1));
    assert_eq!(rt; replay(&board, &table, &[]), Ok(0));
    Ok(())
}

#[test]
fn armed_then_fired_reaches_the_last_state_with_readings(rt: HostRuntime) -> Result<(), Fail> {
    let mut shown = [None; DISPLAYS];
    shown[8] = Some(215i16);
    let codes = store();
    let store = Store {
        steps: &codes.steps,
        owners: &codes.owners,
        displays: &shown,
    };
    let table: Table<'_, Reading> = Table::new(COUNTS, 0, store)?;
    let board = Board::bare(3, 2)?;
    assert_eq!(rt; replay(&board, &table, &[0, 1]), Ok(2));
    assert_eq!(rt; replay(&board, &table, &[1, 0]), Ok(1));
    Ok(())
}

#[test]
fn a_locked_command_moves_nothing(rt: HostRuntime) -> Result<(), Fail> {
    let store = store();
    let table = store.table(COUNTS, 0)?;
    let mut board = Board::bare(3, 2)?;
    board.lock(1)?;
    assert_eq!(rt; replay(&board, &table, &[0, 1, 1]), Ok(1));
    board.unlock(1)?;
    assert_eq!(rt; replay(&board, &table, &[0, 1, 1]), Ok(2));
    Ok(())
}

#[test]
fn no_such_command_is_told_before_differing_counts(rt: HostRuntime) -> Result<(), Fail> {
    let store = store();
    let table = store.table(COUNTS, 0)?;
    let board = Board::bare(4, 2)?;
    assert_eq!(rt;
        replay(&board, &table, &[0, 2]),
        Err(Refusal::NoSuchCommand)
    );
    assert_eq!(rt; replay(&board, &table, &[0, 1]), Err(Refusal::CountsDiffer));
    Ok(())
}
