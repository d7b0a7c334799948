// Functions whose contracts are the theorems on when two command sequences are alike for a console.
#![tactic(auto)]

ghost use Rattle.links.specs.Laws.{MeaningLaws};
ghost use Rattle.links.specs.Three.{purge_meaning, intransitive_purge_meaning, transmitted_meaning};
ghost use Rattle.links.specs.Purge.{purge};
ghost use Rattle.links.specs.Sources.{intransitive_purge};
ghost use Rattle.links.specs.Transmitted.{ta};
ghost use Rattle.links.specs.Equality.{AlikeWhereEqual};
ghost use Rattle.links.specs.Growth.{TaGrows};

// P keeps the laws of a meaning.
#[tactic(auto, using(crate::proofs::Purging::purge_laws))]
pub fn purge_keeps_the_laws()
    ensures { MeaningLaws purge_meaning }
{}

// IP keeps the laws of a meaning.
#[tactic(auto, using(crate::proofs::Sourcing::intransitive_purge_laws))]
pub fn intransitive_purge_keeps_the_laws()
    ensures { MeaningLaws intransitive_purge_meaning }
{}

// TA keeps the laws of a meaning.
#[tactic(auto, using(crate::proofs::Transmitting::transmitted_laws))]
pub fn transmitted_actions_keep_the_laws()
    ensures { MeaningLaws transmitted_meaning }
{}

// Each of the three takes two sequences for alike exactly when it leaves the same of both.
#[tactic(auto, using(crate::proofs::Likeness::purge_alike, crate::proofs::Likeness::intransitive_purge_alike, crate::proofs::Likeness::transmitted_alike))]
pub fn likeness_is_equality()
    ensures purge { AlikeWhereEqual purge_meaning purge }
    ensures intransitive { AlikeWhereEqual intransitive_purge_meaning intransitive_purge }
    ensures transmitted { AlikeWhereEqual transmitted_meaning ta }
{}

// What TA says that a console was told grows with the last command alone.
#[tactic(auto, using(crate::proofs::Telling::ta_grows))]
pub fn transmitted_actions_grow()
    ensures { TaGrows }
{}
