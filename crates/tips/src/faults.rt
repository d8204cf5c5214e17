//! How many signers may be faulty, and how many are a quorum.
ghost use Rattle.std.specs.Prelude.{◌≡◌};
ghost use Rattle.tips.specs.Faults.{faults as most, quorum as enough};

/// The most of `n` signers that may be faulty.
pub fn max_faults(n: usize) -> usize
    ensures { result ≡ most n }
{
    n.saturating_sub(1) / 3
}

/// How many of `n` signers are a quorum.
pub fn quorum(n: usize) -> usize
    ensures { result ≡ enough n }
{
    n - max_faults(n)
}
