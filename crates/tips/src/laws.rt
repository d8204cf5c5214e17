//! What the rules say of every set, and of worked cases.
ghost use Rattle.tips.specs.Faults.{QuorumCases};
ghost use Rattle.tips.specs.Ranks.{One};
ghost use Rattle.tips.specs.Tips.{SafeTipCases};

/// The worked cases of faults and quorum hold.
pub fn quorum_cases_stand()
    ensures { QuorumCases }
{}

/// The worked cases of the safe tip hold.
pub fn safe_tip_cases_stand()
    ensures { SafeTipCases }
{}

/// There is at most one safe tip.
pub fn safe_tip_is_one()
    ensures { One }
{}
