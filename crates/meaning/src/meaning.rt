// What a meaning is asked: whether two sequences are alike for a console, and four questions on consoles.
ghost use Rattle.std.specs.Prelude.{◌≡◌};
ghost use Rattle.links.specs.Laws.{MeaningLaws};
ghost use Rattle.links.specs.Meaning.{MeaningValue};
ghost use Rattle.policy.specs.Flows.{consoles_of, may_affect};
ghost use Rattle.meaning.specs.Asked.{alike_asked, may_drop, may_follow_drop, may_exchange, may_follow_exchange};

use policy::flows::Flows;

// A meaning reads flows and numbers only. A number out of range always gets no.
pub trait Meaning {
    // when two sequences of any length are alike, and the four questions
    ghost meaning: { Self → MeaningValue };

    // Whether `left` and `right` are alike for `console`, where command c belongs to console
    // `owners[c]`; no where one is over 64 commands.
    fn alike(&self, flows: &Flows, owners: &[u8], console: usize, left: &[u8], right: &[u8]) -> bool
        ensures { result ≡ alike_asked (meaning self.now) (consoles_of flows.now) (may_affect flows.now) owners.now console left.now right.now };

    // Whether a command of `dropped` may be dropped for `console`.
    fn may_drop(&self, flows: &Flows, console: usize, dropped: usize) -> bool
        ensures { result ≡ may_drop (meaning self.now) (consoles_of flows.now) (may_affect flows.now) console dropped };

    // Whether a command of `follower` may come after that drop.
    fn may_follow_drop(
        &self,
        flows: &Flows,
        console: usize,
        dropped: usize,
        follower: usize,
    ) -> bool
        ensures { result ≡ may_follow_drop (meaning self.now) (consoles_of flows.now) (may_affect flows.now) console dropped follower };

    // Whether neighbouring commands of `first` and `second` may be exchanged for `console`.
    fn may_exchange(&self, flows: &Flows, console: usize, first: usize, second: usize) -> bool
        ensures { result ≡ may_exchange (meaning self.now) (consoles_of flows.now) (may_affect flows.now) console first second };

    // Whether a command of `follower` may come after that exchange.
    fn may_follow_exchange(
        &self,
        flows: &Flows,
        console: usize,
        first: usize,
        second: usize,
        follower: usize,
    ) -> bool
        ensures { result ≡ may_follow_exchange (meaning self.now) (consoles_of flows.now) (may_affect flows.now) console first second follower };

    // alike are just the sequences that a chain of links joins; a yes stays a yes under fewer
    // flows; the exchange questions do not care which console is named first
    ghost lawful: { (x : Self) → MeaningLaws (meaning x) };
}
