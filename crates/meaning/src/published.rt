// One of the three published meanings as a value, so that a list can mix them.
ghost use Rattle.std.specs.Prelude.{Some, codes};
ghost use Rattle.meaning.specs.Published.{published_meaning, meaning_name, NameRead};
ghost use Rattle.links.proofs.Purging.{purge_laws};
ghost use Rattle.links.proofs.Sourcing.{intransitive_purge_laws};
ghost use Rattle.links.proofs.Transmitting.{transmitted_laws};
ghost use Rattle.meaning.specs.declared.published.Published.TheVariants.{P, Ip, Ta};

use crate::intransitive_purge::IntransitivePurge;
use crate::meaning::Meaning;
use crate::purge::Purge;
use crate::transmitted::TransmittedActions;
use policy::flows::Flows;
use std::error::Error;
use std::fmt;
use std::str::FromStr;

#[derive(Clone, Copy, PartialEq, Eq, Debug)]
pub enum Published {
    P,
    Ip,
    Ta,
}

// The name under which a meaning is asked for.
impl fmt::Display for Published {
    ghost output = { λ meaning. Some (meaning_name meaning) };

    fn fmt<W: fmt::Write>(&self, f: &mut fmt::Formatter<W>) -> fmt::Result {
        f.write_str(match self {
            Published::P => "P",
            Published::Ip => "IP",
            Published::Ta => "TA",
        })
    }
}

// No meaning has the name that was asked for.
#[derive(Clone, Copy, PartialEq, Eq, Debug)]
pub struct NoSuchMeaning;

impl fmt::Display for NoSuchMeaning {
    ghost output = { λ _. Some (codes "a meaning is P, IP or TA") };

    fn fmt<W: fmt::Write>(&self, f: &mut fmt::Formatter<W>) -> fmt::Result {
        f.write_str("a meaning is P, IP or TA")
    }
}

impl Error for NoSuchMeaning {}

impl FromStr for Published {
    type Err = NoSuchMeaning;

    ghost from_str_gives = { NameRead };

    fn from_str(text: &str) -> Result<Published, NoSuchMeaning> {
        match text {
            "P" => Ok(Published::P),
            "IP" => Ok(Published::Ip),
            "TA" => Ok(Published::Ta),
            _ => Err(NoSuchMeaning),
        }
    }
}

// By a match, since a list of calls may mix meanings: the gate refuses a function that returns a
// `dyn` value, and an impl that a macro of ours writes.
impl Meaning for Published {
    ghost meaning = { published_meaning };

    ghost lawful = { elim [ P ↦ purge_laws | Ip ↦ intransitive_purge_laws | Ta ↦ transmitted_laws ] };

    fn alike(
        &self,
        flows: &Flows,
        owners: &[u8],
        console: usize,
        left: &[u8],
        right: &[u8],
    ) -> bool {
        match self {
            Published::P => Purge.alike(flows, owners, console, left, right),
            Published::Ip => IntransitivePurge.alike(flows, owners, console, left, right),
            Published::Ta => TransmittedActions.alike(flows, owners, console, left, right),
        }
    }

    fn may_drop(&self, flows: &Flows, console: usize, dropped: usize) -> bool {
        match self {
            Published::P => Purge.may_drop(flows, console, dropped),
            Published::Ip => IntransitivePurge.may_drop(flows, console, dropped),
            Published::Ta => TransmittedActions.may_drop(flows, console, dropped),
        }
    }

    fn may_follow_drop(
        &self,
        flows: &Flows,
        console: usize,
        dropped: usize,
        follower: usize,
    ) -> bool {
        match self {
            Published::P => Purge.may_follow_drop(flows, console, dropped, follower),
            Published::Ip => IntransitivePurge.may_follow_drop(flows, console, dropped, follower),
            Published::Ta => TransmittedActions.may_follow_drop(flows, console, dropped, follower),
        }
    }

    fn may_exchange(&self, flows: &Flows, console: usize, first: usize, second: usize) -> bool {
        match self {
            Published::P => Purge.may_exchange(flows, console, first, second),
            Published::Ip => IntransitivePurge.may_exchange(flows, console, first, second),
            Published::Ta => TransmittedActions.may_exchange(flows, console, first, second),
        }
    }

    fn may_follow_exchange(
        &self,
        flows: &Flows,
        console: usize,
        first: usize,
        second: usize,
        follower: usize,
    ) -> bool {
        match self {
            Published::P => Purge.may_follow_exchange(flows, console, first, second, follower),
            Published::Ip => IntransitivePurge.may_follow_exchange(
                flows, console, first, second, follower,
            ),
            Published::Ta => TransmittedActions.may_follow_exchange(
                flows, console, first, second, follower,
            ),
        }
    }
}
