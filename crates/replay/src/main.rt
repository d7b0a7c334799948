// Replays command sequences on a receiver: a transcript of one, or a comparison of two.
#![tactic(auto)]

ghost use Rattle.std.specs.Prelude.{◌≡◌, Ok, Err, IfOk, IfErr};
ghost use Rattle.policy.specs.Board.{value_of};
ghost use Rattle.replay.specs.Replays.{all_locked, Answered};

use anyhow::anyhow;
use control::control::Control;
use meaning::published::Published;
use policy::board::Board;
use policy::refusal::Refusal;
use receiver::asking::ask;
use receiver::question::Question;
use report::comparison::comparison;
use report::refusals::refusal_sentence;
use report::transcript::transcript;
use report::trouble::Trouble;
use std::alloc::Global;
use std::io::Write;
use std::{env, fs};

const HELP: &str = "replay [--sheet FILE] COMMAND... [--lock COMMAND...]
replay [--sheet FILE] --alike MEANING CONSOLE COMMAND... --and COMMAND... [--lock COMMAND...]

Runs commands, numbers from 0, on the receiver of a sheet, or on a built-in one: its
command 0 of console 0 arms it, command 1 of console 1 fires it once it is armed, and
console 2 then shows the temperature in tenths of a degree.

The first form prints the state after each command and what every console then shows.
The second form says whether two sequences are alike for a console under a meaning
(P, IP or TA), and what the console shows after each. The commands after --lock are
locked out: they may be given and move nothing.
";

const BUILT_IN: &[u8] = b"states commands consoles start display
3 2 3 0 reading
command console
0 0
1 1
state command next
0 0 1
0 1 0
1 0 1
1 1 2
2 0 2
2 1 2
state console display
0 0 none
0 1 none
0 2 none
1 0 none
1 1 none
1 2 none
2 0 none
2 1 none
2 2 215
from to
0 1
1 2
";

// What the next word of the command line is. Words come in any order, a later flag may cut an earlier
// one short, and the first word that is wrong is told: so they are taken one by one, in a state.
#[derive(Clone, Copy)]
enum Next {
    Meaning,
    Console,
    First,
    Second,
    Lock,
    Sheet,
}

// What the words on the command line ask for. A flag may cut `--alike` short, so a console and a
// second sequence stand beside the meaning that they count for.
#[derive(Drop)]
struct Asked {
    heap: Global,
    meaning: Option<Published>,
    console: u8,
    first: Vec<u8>,
    second: Vec<u8>,
    locked: Vec<u8>,
    sheet: Vec<u8>,
}

fn number(word: &str) -> anyhow::Result<u8> {
    match word.parse::<u8>() {
        Ok(number) => Ok(number),
        Err(_) => Err(anyhow!("a number is due, see --help")),
    }
}

// Takes one word up into what is asked, and says what the next word is.
fn take_word(rt: &HostRuntime, asked: &mut Asked, next: Next, word: &str) -> anyhow::Result<Next> {
    match (word, next) {
        ("--help", _) => Ok(next),
        ("--alike", _) => Ok(Next::Meaning),
        ("--and", _) => Ok(Next::Second),
        ("--lock", _) => Ok(Next::Lock),
        ("--sheet", _) => Ok(Next::Sheet),
        (_, Next::Sheet) => {
            asked.sheet = fs::read(rt, word)?;
            Ok(Next::First)
        }
        (_, Next::Meaning) => {
            asked.meaning = Some(word.parse::<Published>()?);
            Ok(Next::Console)
        }
        (_, Next::Console) => {
            asked.console = number(word)?;
            Ok(Next::First)
        }
        (_, Next::First) => {
            asked.first.push(number(word)?)?;
            Ok(next)
        }
        (_, Next::Second) => {
            asked.second.push(number(word)?)?;
            Ok(next)
        }
        (_, Next::Lock) => {
            asked.locked.push(number(word)?)?;
            Ok(next)
        }
    }
}

// What the words ask for, or nothing where one of them asks for help.
fn read_words(rt: &HostRuntime) -> anyhow::Result<Option<Asked>> {
    let heap = rt.alloc();
    let mut asked = Asked {
        heap,
        meaning: None,
        console: 0,
        first: Vec::new(heap),
        second: Vec::new(heap),
        locked: Vec::new(heap),
        sheet: BUILT_IN.to_vec(heap)?,
    };
    let mut next = Next::First;
    let mut help = false;
    for word in env::args(rt)?.skip(1) {
        help = help || word.as_str() == "--help";
        next = take_word(rt, &mut asked, next, word.as_str())?;
    }
    Ok((!help).then_some(asked))
}

// The board with the commands locked one by one.
fn lock_all(mut board: Board, commands: &[u8]) -> Result<Board, Refusal>
    ensures locked { IfOk result (λ b. all_locked (value_of board) commands.now ≡ Ok (value_of b)) }
    ensures refused { IfErr result (λ e. all_locked (value_of board) commands.now ≡ Err e) }
{
    for command in commands {
        board.lock(usize::from(*command))?;
    }
    Ok(board)
}

// What is asked for, under the board's lockouts and those asked for besides.
impl Question for Asked {
    type Answer = Result<Vec<u8>, Trouble>;

    ghost answered = { λ self board _ mark control answer. Answered (λ t. t.items) self board mark control answer };

    fn ask<C: Control>(&self, board: Board, control: &C) -> Result<Vec<u8>, Trouble> {
        let board = lock_all(board, self.locked.as_slice())?;
        let first = self.first.as_slice();
        match self.meaning {
            None => transcript(self.heap, &board, control, first),
            Some(meaning) => comparison(
                self.heap,
                &board,
                control,
                meaning,
                usize::from(self.console),
                first,
                self.second.as_slice(),
            ),
        }
    }
}

fn answer(asked: &Asked) -> Result<Vec<u8>, Trouble> {
    ask(asked.sheet.as_slice(), asked)?
}

fn run(rt: &HostRuntime) -> anyhow::Result<()> {
    let Some(asked) = read_words(rt)? else {
        rt.print(HELP)?;
        return Ok(());
    };
    match answer(&asked) {
        Ok(text) => rt.stdout().write_all(text.as_slice())?,
        Err(Trouble::Refused(refusal)) => rt.print(refusal_sentence(rt.alloc(), refusal)?)?,
        Err(Trouble::Memory) => return Err(anyhow!("there is no memory for the answer")),
    }
    Ok(())
}

fn main(rt: HostRuntime) -> anyhow::Result<()> {
    run(&rt)
}
