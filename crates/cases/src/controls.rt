// Tables and pairs of controls: limits, numbers out of range, and what fits side by side.
use crate::latch;
use crate::store::Codes;
use control::control::Control;
use control::side_by_side::{SideBySide, check_fit};
use control::table::{Counts, DISPLAYS, OWNERS, STEPS, Store, Table};
use display::code::Code;
use policy::refusal::Refusal;
use std::test::Fail;

fn counts(states: usize) -> Counts {
    Counts {
        states,
        commands: 2,
        consoles: 3,
    }
}

#[test]
fn counts_out_of_range_are_read_as_one(rt: HostRuntime) -> Result<(), Fail> {
    let store = Codes {
        steps: [9; STEPS],
        owners: [9; OWNERS],
        displays: [7; DISPLAYS],
    };
    let most = Counts {
        states: 100,
        commands: 24,
        consoles: 12,
    };
    let largest = store.table(most, 99)?;
    assert_eq!(rt; largest.states(), 100);
    assert_eq!(rt; largest.start(), 99);
    assert_eq!(rt; largest.next(99, 23), 9);
    let too_many = Counts {
        states: 101,
        commands: 25,
        consoles: 13,
    };
    let beyond = store.table(too_many, 99)?;
    assert_eq!(rt; beyond.states(), 1);
    assert_eq!(rt; beyond.commands(), 1);
    assert_eq!(rt; beyond.consoles(), 1);
    assert_eq!(rt; beyond.start(), 0);
    assert_eq!(rt; beyond.owner(0), 0);
    assert_eq!(rt; beyond.next(0, 0), 0);
    Ok(())
}

#[test]
fn a_store_must_have_room_for_every_table(rt: HostRuntime) {
    let store = Codes::blank();
    let short = Store {
        steps: &store.steps[0..2399],
        owners: &store.owners,
        displays: &store.displays,
    };
    let refused: Result<Table<'_, Code>, Refusal> = Table::new(counts(3), 0, short);
    assert!(rt; refused.is_err());
    assert!(rt; store.table(counts(3), 0).is_ok());
}

#[test]
fn ten_states_fit_beside_ten_and_eleven_do_not(rt: HostRuntime) -> Result<(), Fail> {
    let store = Codes::blank();
    let ten = store.table(counts(10), 9)?;
    let eleven = store.table(counts(11), 10)?;
    assert_eq!(rt; check_fit(&ten, &ten), Ok(()));
    assert_eq!(rt; check_fit(&eleven, &ten), Err(Refusal::DoesNotFit));
    let pair = SideBySide {
        left: ten,
        right: ten,
    };
    assert_eq!(rt; pair.states(), 100);
    assert_eq!(rt; pair.start(), 99);
    let unfit = SideBySide {
        left: eleven,
        right: ten,
    };
    assert_eq!(rt; unfit.states(), 11);
    assert_eq!(rt; unfit.commands(), 2);
    assert_eq!(rt; unfit.start(), 10);
    Ok(())
}

#[test]
fn a_pair_of_pairs_moves_each_side_by_its_own_commands(rt: HostRuntime) -> Result<(), Fail> {
    let store = latch::store();
    let latch = store.table(latch::COUNTS, 0)?;
    let pair = SideBySide {
        left: latch,
        right: latch,
    };
    let four = SideBySide {
        left: pair,
        right: pair,
    };
    assert_eq!(rt; four.states(), 81);
    assert_eq!(rt; four.commands(), 8);
    assert_eq!(rt; four.consoles(), 12);
    assert_eq!(rt; four.next(0, 0), 27);
    assert_eq!(rt; four.next(27, 6), 28);
    assert_eq!(rt; four.next(28, 7), 29);
    assert_eq!(rt; four.owner(7), 10);
    Ok(())
}
