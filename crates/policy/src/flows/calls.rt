// The calls on flows: made bare, allow, forbid, and the question whether one console may affect another.
ghost use Rattle.std.specs.Prelude.{◌≡◌, ℕ, false, is_ok, IfOk, IfErr, if◌then◌else◌};
ghost use Rattle.theory.specs.Limits.{counts, most_consoles};
ghost use Rattle.theory.specs.Flows.{bare_flows, with_flow, without_flow};
ghost use Rattle.policy.specs.Flows.{consoles_of, may_affect, allow_answer, forbid_answer};
ghost use Rattle.policy.specs.declared.refusal.Refusal.TheVariants.{BoardLimits};

use crate::flows::Flows;
use crate::members::Members;
use crate::refusal::Refusal;
use theory::limits::MOST_CONSOLES;

impl Flows {
    // Each console's flow to itself, and no other.
    pub fn bare(consoles: usize) -> Result<Flows, Refusal>
        ensures answer { is_ok result ≡ counts most_consoles consoles }
        ensures bare { IfOk result (λ f. (consoles_of f ≡ consoles) × ((u v : ℕ) → may_affect f u v ≡ bare_flows consoles u v)) }
        ensures refused { IfErr result (λ e. e ≡ BoardLimits) }
    {
        if consoles < 1 || consoles > MOST_CONSOLES {
            return Err(Refusal::BoardLimits);
        }
        let mut rows = [Members::none(); MOST_CONSOLES];
        // By index: no invariant can name the rows while `iter_mut` lends them, and `array::from_fn`
        // leaves open what its closure has captured.
        for u in 0..consoles {
            rows[u] = Members::none().with(u);
        }
        Ok(Flows { consoles, rows })
    }

    pub fn consoles(&self) -> usize
        ensures { result ≡ consoles_of self.now }
    {
        self.consoles
    }

    // Whether `from` may affect `to`; no for a console that there is not.
    pub fn may_affect(&self, from: usize, to: usize) -> bool
        ensures { result ≡ may_affect self.now from to }
    {
        from < self.consoles && self.rows[from].has(to)
    }

    // Refused where the board lacks one of the two consoles.
    fn check_consoles(&self, from: usize, to: usize) -> Result<(), Refusal>
        ensures { result ≡ allow_answer (consoles_of self.now) from to }
    {
        if from < self.consoles && to < self.consoles {
            Ok(())
        } else {
            Err(Refusal::NoSuchConsole)
        }
    }

    pub fn allow(&mut self, from: usize, to: usize) -> Result<(), Refusal>
        ensures answer { result ≡ allow_answer (consoles_of self.old) from to }
        ensures flows { (u v : ℕ) → may_affect self.new u v ≡ (if is_ok result then with_flow (may_affect self.old) from to u v else may_affect self.old u v) }
        ensures consoles { consoles_of self.new ≡ consoles_of self.old }
        ensures kept { is_ok result ≡ false → self.new ≡ self.old }
    {
        self.check_consoles(from, to)?;
        self.rows[from] = self.rows[from].with(to);
        Ok(())
    }

    pub fn forbid(&mut self, from: usize, to: usize) -> Result<(), Refusal>
        ensures answer { result ≡ forbid_answer (consoles_of self.old) from to }
        ensures flows { (u v : ℕ) → may_affect self.new u v ≡ (if is_ok result then without_flow (may_affect self.old) from to u v else may_affect self.old u v) }
        ensures consoles { consoles_of self.new ≡ consoles_of self.old }
        ensures kept { is_ok result ≡ false → self.new ≡ self.old }
    {
        self.check_consoles(from, to)?;
        if from == to {
            return Err(Refusal::SelfFlow);
        }
        self.rows[from] = self.rows[from].without(to);
        Ok(())
    }
}
