// The definitions that every other crate rests on are in specs/; the functions here carry theorems on them.
#![tactic(auto)]

ghost use Rattle.theory.specs.Theorems.{RunsJoin, LockedCommandsMoveNothing, SidesRunApart};

pub mod limits;

// A sequence followed by another leads where the other leads from the end of the first.
pub fn runs_join()
    ensures { RunsJoin }
{}

// A sequence leads where it leads without its locked commands.
#[tactic(auto, using(crate::proofs::Unlocked::locked_move_nothing))]
pub fn locked_commands_move_nothing()
    ensures { LockedCommandsMoveNothing }
{}

// Of two controls side by side each goes where its own commands lead it.
#[tactic(auto, using(crate::proofs::Apart::sides_run_apart))]
pub fn sides_run_apart<D>()
    ensures { SidesRunApart D }
{}
