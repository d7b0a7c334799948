// A board: the flows and the lockouts in force at a receiver.
ghost use Rattle.std.specs.Prelude.{◌≡◌, false, ◌&&◌, is_ok, IfOk, IfErr};
ghost use Rattle.theory.specs.Limits.{counts, most_consoles, most_commands};
ghost use Rattle.policy.specs.Flows.{allow_answer, forbid_answer};
ghost use Rattle.policy.specs.Lockouts.{lock_answer};
ghost use Rattle.policy.specs.Board.{flows_of, lockouts_of, value_of};
ghost use Rattle.policy.specs.Calls.{bare_board, after_allow, after_forbid, after_lock, after_unlock};
ghost use Rattle.policy.specs.declared.refusal.Refusal.TheVariants.{BoardLimits};

use crate::flows::Flows;
use crate::lockouts::Lockouts;
use crate::refusal::Refusal;

// Flows and lockouts joined; each part keeps its own invariant.
#[derive(Clone, Copy)]
pub struct Board {
    flows: Flows,
    lockouts: Lockouts,
}

impl Board {
    // A bare board: each console's flow to itself, and no lockout.
    pub fn bare(consoles: usize, commands: usize) -> Result<Board, Refusal>
        ensures answer { is_ok result ≡ (counts most_consoles consoles && counts most_commands commands) }
        ensures bare { IfOk result (λ b. value_of b ≡ bare_board consoles commands) }
        ensures refused { IfErr result (λ e. e ≡ BoardLimits) }
    {
        let flows = Flows::bare(consoles)?;
        let lockouts = Lockouts::bare(commands)?;
        Ok(Board { flows, lockouts })
    }

    pub fn flows(&self) -> &Flows
        ensures { result.now ≡ flows_of self.now }
    {
        &self.flows
    }

    pub fn lockouts(&self) -> &Lockouts
        ensures { result.now ≡ lockouts_of self.now }
    {
        &self.lockouts
    }

    pub fn allow(&mut self, from: usize, to: usize) -> Result<(), Refusal>
        ensures answer { result ≡ allow_answer (value_of self.old).consoles from to }
        ensures board { value_of self.new ≡ after_allow (value_of self.old) from to }
        ensures lockouts { lockouts_of self.new ≡ lockouts_of self.old }
        ensures kept { is_ok result ≡ false → self.new ≡ self.old }
    {
        self.flows.allow(from, to)
    }

    pub fn forbid(&mut self, from: usize, to: usize) -> Result<(), Refusal>
        ensures answer { result ≡ forbid_answer (value_of self.old).consoles from to }
        ensures board { value_of self.new ≡ after_forbid (value_of self.old) from to }
        ensures lockouts { lockouts_of self.new ≡ lockouts_of self.old }
        ensures kept { is_ok result ≡ false → self.new ≡ self.old }
    {
        self.flows.forbid(from, to)
    }

    pub fn lock(&mut self, command: usize) -> Result<(), Refusal>
        ensures answer { result ≡ lock_answer (value_of self.old).commands command }
        ensures board { value_of self.new ≡ after_lock (value_of self.old) command }
        ensures flows { flows_of self.new ≡ flows_of self.old }
        ensures kept { is_ok result ≡ false → self.new ≡ self.old }
    {
        self.lockouts.lock(command)
    }

    pub fn unlock(&mut self, command: usize) -> Result<(), Refusal>
        ensures answer { result ≡ lock_answer (value_of self.old).commands command }
        ensures board { value_of self.new ≡ after_unlock (value_of self.old) command }
        ensures flows { flows_of self.new ≡ flows_of self.old }
        ensures kept { is_ok result ≡ false → self.new ≡ self.old }
    {
        self.lockouts.unlock(command)
    }
}
