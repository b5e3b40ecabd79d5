//! A world of links (`exb_world_spec`) comes to rest: from each world that has the facts stated
//! here, whatever the fate's verdicts are, a settle makes no more rounds than the bound says, and
//! leaves the world settled. No code stands here but laws.
//!
//! The bound is `SettleEnds` in `specs/SettlingBound`; what it needs of each reachable world is
//! `Facts` in `specs/SettlingFacts`, and an invariant that gives these and that each step of a
//! round keeps is `IsInvariant`. `settle_ends` of `proofs/BeatLaw` follows from a tree, from the
//! round trip of E-TAGs and from such an invariant alone.
//!
//! The facts have two halves. `IsGoing` of `specs/SessionInvariant` speaks of both ends of each
//! session and of the words between them: each valid setup begins so, and each step keeps it
//! (`proofs/InvariantSteps`, `proofs/InputSteps`). `IsOrderly` speaks of changes and their order:
//! it follows from `InTurn` of `exb_control_spec` and from what is laid at every moment
//! (`proofs/ReachableExtenders`, `proofs/OrderFacts`). Both are put together over the runs of a
//! valid setup by the law `settles` of `exb_world_laws`: that worlds are sound at every moment is
//! known there.
#![tactic(auto)]

pub mod laws;
