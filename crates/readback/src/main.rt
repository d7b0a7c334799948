// Reads a sheet from standard input and reads its permitted flows back in words that a site can confirm.
#![tactic(auto)]

ghost use Rattle.std.specs.Prelude.{◌≡◌, IfOk, string_bytes};
ghost use Rattle.report.specs.Readbacks.{readback_text};

use anyhow::anyhow;
use control::control::Control;
use policy::board::Board;
use receiver::asking::ask;
use receiver::question::Question;
use report::readback::readback;
use report::refusals::refusal_values;
use std::alloc::{AllocError, Global};
use std::env;
use std::io::{Read, Write};
use theory::limits::MOST_SHEET_BYTES;

const HELP: &str = "readback < SHEET

Reads a sheet and says in words which console may affect which, and for each console
by whom it may be affected. For a sheet that is refused it prints the refusal's number,
and the place, line and block of the fault.
";

// One byte more than a sheet may have, so that a longer one is seen to be too long.
const MOST: u64 = MOST_SHEET_BYTES as u64 + 1;

// The flows of a receiver's board in words, whatever it shows.
#[derive(Drop)]
struct Readback {
    heap: Global,
}

impl Question for Readback {
    type Answer = Result<String, AllocError>;

    ghost answered = { λ _ board _ _ _ answer. IfOk answer (λ t. string_bytes t ≡ readback_text board.flows board.consoles) };

    fn ask<C: Control>(&self, board: Board, _control: &C) -> Result<String, AllocError> {
        readback(self.heap, board.flows())
    }
}

fn run(rt: &HostRuntime) -> anyhow::Result<()> {
    for word in env::args(rt)?.skip(1) {
        if word.as_str() == "--help" {
            rt.print(HELP)?;
            return Ok(());
        }
    }
    let mut sheet = Vec::new(rt.alloc());
    rt.stdin().take(MOST).read_to_end(&mut sheet)?;
    match ask(sheet.as_slice(), &Readback { heap: rt.alloc() }) {
        // one write: a reader that closes the pipe behind the first lines stops nothing
        Ok(Ok(text)) => rt.stdout().write_all(text.as_bytes())?,
        Ok(Err(_)) => return Err(anyhow!("there is no memory for the answer")),
        Err(refusal) => rt.print(refusal_values(rt.alloc(), refusal)?)?,
    }
    Ok(())
}

fn main(rt: HostRuntime) -> anyhow::Result<()> {
    run(&rt)
}
