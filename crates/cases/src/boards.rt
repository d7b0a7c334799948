// Boards: their limits on both sides of each edge, their calls and refusals.
use policy::board::Board;
use policy::refusal::Refusal;
use std::test::Fail;

#[test]
fn a_board_has_one_to_twelve_consoles(rt: HostRuntime) {
    assert!(rt; Board::bare(0, 1).is_err());
    assert!(rt; Board::bare(1, 1).is_ok());
    assert!(rt; Board::bare(12, 1).is_ok());
    assert!(rt; Board::bare(13, 1).is_err());
}

#[test]
fn a_board_has_one_to_twenty_four_commands(rt: HostRuntime) {
    assert!(rt; Board::bare(1, 0).is_err());
    assert!(rt; Board::bare(1, 24).is_ok());
    assert!(rt; Board::bare(1, 25).is_err());
}

#[test]
fn flows_are_not_completed(rt: HostRuntime) -> Result<(), Fail> {
    let mut board = Board::bare(12, 24)?;
    board.allow(0, 1)?;
    board.allow(1, 2)?;
    board.allow(1, 2)?;
    assert!(rt; board.flows().may_affect(0, 1));
    assert!(rt; !board.flows().may_affect(1, 0));
    assert!(rt; !board.flows().may_affect(0, 2));
    assert!(rt; board.flows().may_affect(11, 11));
    assert!(rt; !board.flows().may_affect(12, 12));
    board.forbid(1, 2)?;
    assert!(rt; !board.flows().may_affect(1, 2));
    Ok(())
}

#[test]
fn refused_calls_say_why(rt: HostRuntime) -> Result<(), Fail> {
    let mut board = Board::bare(12, 24)?;
    assert_eq!(rt; board.allow(12, 0), Err(Refusal::NoSuchConsole));
    assert_eq!(rt; board.forbid(0, 12), Err(Refusal::NoSuchConsole));
    assert_eq!(rt; board.forbid(3, 3), Err(Refusal::SelfFlow));
    assert_eq!(rt; board.lock(24), Err(Refusal::NoSuchCommand));
    assert_eq!(rt; board.unlock(24), Err(Refusal::NoSuchCommand));
    assert_eq!(rt; board.lock(23), Ok(()));
    assert!(rt; board.lockouts().is_locked(23));
    assert!(rt; !board.lockouts().is_locked(22));
    Ok(())
}
