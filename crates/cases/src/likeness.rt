// Likeness on worked examples: the latch, and a control where the order of two commands is not to be told.
use crate::latch;
use crate::store::Codes;
use control::table::Counts;
use meaning::likeness::likeness;
use meaning::published::Published;
use policy::board::Board;
use policy::refusal::Refusal;
use std::test::Fail;

// The flows of the latch's board.
const LATCH_FLOWS: [(usize, usize); 2] = [(0, 1), (1, 2)];

// Commands 0 to 3 belong to consoles 0 to 3.
fn own_consoles() -> Codes {
    let mut store = Codes::blank();
    store.owners[1] = 1;
    store.owners[2] = 2;
    store.owners[3] = 3;
    store
}

// A board with the flows from one console to another.
fn board(consoles: usize, commands: usize, flows: &[(usize, usize)]) -> Result<Board, Refusal> {
    let mut board = Board::bare(consoles, commands)?;
    for (from, to) in flows {
        board.allow(*from, *to)?;
    }
    Ok(board)
}

#[test]
fn what_is_carried_on_is_not_dropped(rt: HostRuntime) -> Result<(), Fail> {
    let store = latch::store();
    let table = store.table(latch::COUNTS, 0)?;
    let board = board(3, 2, &LATCH_FLOWS)?;
    assert_eq!(rt;
        likeness(&board, &table, &Published::Ip, 2, &[0, 1], &[1]),
        Ok(false)
    );
    assert_eq!(rt;
        likeness(&board, &table, &Published::Ip, 2, &[1, 0], &[1]),
        Ok(true)
    );
    assert_eq!(rt;
        likeness(&board, &table, &Published::P, 2, &[0, 1], &[1]),
        Ok(true)
    );
    assert_eq!(rt;
        likeness(&board, &table, &Published::Ta, 2, &[], &[0]),
        Ok(true)
    );
    Ok(())
}

#[test]
fn an_order_that_nobody_carries_is_not_told(rt: HostRuntime) -> Result<(), Fail> {
    let store = own_consoles();
    let counts = Counts {
        states: 9,
        commands: 4,
        consoles: 5,
    };
    let table = store.table(counts, 0)?;
    let board = board(5, 4, &[(0, 2), (1, 3), (2, 4), (3, 4)])?;
    assert_eq!(rt;
        likeness(
            &board,
            &table,
            &Published::Ta,
            4,
            &[0, 1, 2, 3],
            &[1, 0, 2, 3],
        ),
        Ok(true)
    );
    assert_eq!(rt;
        likeness(
            &board,
            &table,
            &Published::Ip,
            4,
            &[0, 1, 2, 3],
            &[1, 0, 2, 3],
        ),
        Ok(false)
    );
    Ok(())
}

#[test]
fn refusals_come_in_their_order(rt: HostRuntime) -> Result<(), Fail> {
    let store = latch::store();
    let table = store.table(latch::COUNTS, 0)?;
    let other = Board::bare(4, 2)?;
    let long = [0; 65];
    assert_eq!(rt;
        likeness(&other, &table, &Published::P, 4, &[2], &long),
        Err(Refusal::NoSuchConsole)
    );
    assert_eq!(rt;
        likeness(&other, &table, &Published::P, 3, &[2], &long),
        Err(Refusal::NoSuchCommand)
    );
    assert_eq!(rt;
        likeness(&other, &table, &Published::P, 3, &[1], &long),
        Err(Refusal::CountsDiffer)
    );
    let board = board(3, 2, &LATCH_FLOWS)?;
    assert_eq!(rt;
        likeness(&board, &table, &Published::P, 2, &[1], &long),
        Err(Refusal::SequenceTooLong)
    );
    assert_eq!(rt;
        likeness(
            &board,
            &table,
            &Published::Ta,
            2,
            &long[0..64],
            &long[0..64],
        ),
        Ok(true)
    );
    Ok(())
}
