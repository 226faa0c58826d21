//! Laws over all positions.
ghost use Rattle.kalah_rules.specs.Laws.{EveryMoveNearsEnd, SowingIsSeedBySeed};

/// Every game ends, for all positions and both rules of capture. Each legal move leaves fewer seeds in houses, or equally many that lie
/// nearer to their owners' stores.
#[tactic(auto, using(crate::proofs::PlayLemmas::legal_holds, crate::proofs::PlayLemmas::after_nearer))]
pub fn every_move_nears_end()
    ensures { EveryMoveNearsEnd }
{}

/// The formula by which sowing is defined sows seed by seed. With no seed sown the house is empty, and each further seed goes to the next
/// cell of the lap.
#[tactic(auto, using(crate::proofs::PlayLemmas::sow_none, crate::proofs::PlayLemmas::sow_suc))]
pub fn sowing_is_seed_by_seed()
    ensures { SowingIsSeedBySeed }
{}
