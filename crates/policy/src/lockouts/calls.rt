// The calls on lockouts: made bare, lock, unlock, and the question whether a command is locked.
ghost use Rattle.std.specs.Prelude.{◌≡◌, ℕ, false, is_ok, IfOk, IfErr, if◌then◌else◌};
ghost use Rattle.theory.specs.Limits.{counts, most_commands};
ghost use Rattle.theory.specs.Flows.{no_lockout, with_lock, without_lock};
ghost use Rattle.policy.specs.Lockouts.{commands_of, locks, lock_answer};
ghost use Rattle.policy.specs.declared.refusal.Refusal.TheVariants.{BoardLimits};

use crate::lockouts::Lockouts;
use crate::members::Members;
use crate::refusal::Refusal;
use theory::limits::MOST_COMMANDS;

impl Lockouts {
    // No command is locked.
    pub fn bare(commands: usize) -> Result<Lockouts, Refusal>
        ensures answer { is_ok result ≡ counts most_commands commands }
        ensures bare { IfOk result (λ l. (commands_of l ≡ commands) × ((c : ℕ) → locks l c ≡ no_lockout c)) }
        ensures refused { IfErr result (λ e. e ≡ BoardLimits) }
    {
        if commands < 1 || commands > MOST_COMMANDS {
            return Err(Refusal::BoardLimits);
        }
        Ok(Lockouts {
            commands,
            locked: Members::none(),
        })
    }

    pub fn commands(&self) -> usize
        ensures { result ≡ commands_of self.now }
    {
        self.commands
    }

    // Whether `command` is locked; no for a command that there is not.
    pub fn is_locked(&self, command: usize) -> bool
        ensures { result ≡ locks self.now command }
    {
        self.locked.has(command)
    }

    // Refused where the board lacks the command.
    fn check_command(&self, command: usize) -> Result<(), Refusal>
        ensures { result ≡ lock_answer (commands_of self.now) command }
    {
        if command < self.commands {
            Ok(())
        } else {
            Err(Refusal::NoSuchCommand)
        }
    }

    pub fn lock(&mut self, command: usize) -> Result<(), Refusal>
        ensures answer { result ≡ lock_answer (commands_of self.old) command }
        ensures lockouts { (c : ℕ) → locks self.new c ≡ (if is_ok result then with_lock (locks self.old) command c else locks self.old c) }
        ensures commands { commands_of self.new ≡ commands_of self.old }
        ensures kept { is_ok result ≡ false → self.new ≡ self.old }
    {
        self.check_command(command)?;
        self.locked = self.locked.with(command);
        Ok(())
    }

    pub fn unlock(&mut self, command: usize) -> Result<(), Refusal>
        ensures answer { result ≡ lock_answer (commands_of self.old) command }
        ensures lockouts { (c : ℕ) → locks self.new c ≡ (if is_ok result then without_lock (locks self.old) command c else locks self.old c) }
        ensures commands { commands_of self.new ≡ commands_of self.old }
        ensures kept { is_ok result ≡ false → self.new ≡ self.old }
    {
        self.check_command(command)?;
        self.locked = self.locked.without(command);
        Ok(())
    }
}
