// Each text made once, and compared with what its definition says by hand.
use crate::comparison::comparison;
use crate::readback::readback;
use crate::refusals::{refusal_sentence, refusal_values};
use crate::transcript::transcript;
use crate::trouble::Trouble;
use control::table::{Counts, DISPLAYS, OWNERS, STEPS, Store, Table};
use display::code::Code;
use mark::cause::Cause;
use meaning::published::Published;
use policy::board::Board;
use policy::refusal::Refusal;
use std::test::Fail;

// The latch: command 0 of console 0 arms it, command 1 of console 1 fires it once armed, and
// console 2 then shows a 1.
#[derive(Drop)]
struct Latch {
    steps: [u8; STEPS],
    owners: [u8; OWNERS],
    displays: [u16; DISPLAYS],
}

impl Latch {
    fn new() -> Latch {
        let mut steps = [0; STEPS];
        steps[0] = 1;
        steps[2] = 1;
        steps[3] = 2;
        steps[4] = 2;
        steps[5] = 2;
        let mut owners = [0; OWNERS];
        owners[1] = 1;
        let mut displays = [0; DISPLAYS];
        displays[8] = 1;
        Latch {
            steps,
            owners,
            displays,
        }
    }

    fn table(&self) -> Result<Table<'_, Code>, Refusal> {
        let counts = Counts {
            states: 3,
            commands: 2,
            consoles: 3,
        };
        let store = Store {
            steps: &self.steps,
            owners: &self.owners,
            displays: &self.displays,
        };
        Table::new(counts, 0, store)
    }
}

fn board() -> Result<Board, Refusal> {
    let mut board = Board::bare(3, 2)?;
    board.allow(0, 1)?;
    board.allow(1, 2)?;
    Ok(board)
}

const LOCKED_TRANSCRIPT: &[u8] = b" step  command  effect  state   console 0   console 1   console 2
start                       0           0           0           0
    1        0   given      1           0           0           0
    2        1  locked      1           0           0           0
closing state 1
";

#[test]
fn a_locked_command_is_told_as_locked(rt: HostRuntime) -> Result<(), Fail> {
    let latch = Latch::new();
    let table = latch.table()?;
    let mut board = board()?;
    board.lock(1)?;
    let text = transcript(rt.alloc(), &board, &table, &[0, 1])?;
    assert!(rt; text.as_slice() == LOCKED_TRANSCRIPT);
    Ok(())
}

const NOT_ALIKE: &[u8] = b"Under IP the two sequences are not alike for console 2.
After the first one the state is 2 and the console shows 1.
After the second one the state is 0 and the console shows 0.
";

const ALIKE: &[u8] = b"Under P the two sequences are alike for console 2.
After the first one the state is 2 and the console shows 1.
After the second one the state is 0 and the console shows 0.
";

#[test]
fn a_comparison_says_whether_both_are_alike(rt: HostRuntime) -> Result<(), Fail> {
    let latch = Latch::new();
    let table = latch.table()?;
    let board = board()?;
    let text = comparison(rt.alloc(), &board, &table, Published::Ip, 2, &[0, 1], &[1])?;
    assert!(rt; text.as_slice() == NOT_ALIKE);
    let text = comparison(rt.alloc(), &board, &table, Published::P, 2, &[0, 1], &[1])?;
    assert!(rt; text.as_slice() == ALIKE);
    Ok(())
}

#[test]
fn what_is_refused_has_no_text(rt: HostRuntime) -> Result<(), Fail> {
    let latch = Latch::new();
    let table = latch.table()?;
    let board = board()?;
    match transcript(rt.alloc(), &board, &table, &[2]) {
        Ok(_) => return Err(Fail::new("there is no such command")),
        Err(trouble) => assert_eq!(rt; trouble, Trouble::Refused(Refusal::NoSuchCommand)),
    }
    match comparison(rt.alloc(), &board, &table, Published::Ta, 3, &[], &[]) {
        Ok(_) => return Err(Fail::new("there is no such console")),
        Err(trouble) => assert_eq!(rt; trouble, Trouble::Refused(Refusal::NoSuchConsole)),
    }
    Ok(())
}

#[test]
fn a_refusal_has_a_sentence_and_values(rt: HostRuntime) -> Result<(), Fail> {
    let fault = Refusal::Fault {
        cause: Cause::NotDue,
        place: 215,
        line: 24,
        block: 5,
    };
    let sentence = refusal_sentence(rt.alloc(), Refusal::NoSuchCommand)?;
    assert!(rt; sentence.as_str() == "Refused with number 8: there is no such command.\n");
    let sentence = refusal_sentence(rt.alloc(), fault)?;
    assert!(rt; sentence.as_str() == "Refused with number 4: the sheet has a fault.\n");
    let values = refusal_values(rt.alloc(), fault)?;
    assert!(rt; values.as_str() == "refusal place line block\n4 215 24 5\n");
    Ok(())
}

const READBACK: &str = "Permitted flows:
console 0 may affect console 1
console 1 may affect console 2
Seen from each console:
console 0 may be affected by itself
console 1 may be affected by itself, console 0
console 2 may be affected by itself, console 1
";

#[test]
fn flows_are_read_back_both_ways(rt: HostRuntime) -> Result<(), Fail> {
    let text = readback(rt.alloc(), board()?.flows())?;
    assert!(rt; text.as_str() == READBACK);
    Ok(())
}
