//! The power for stores into a medium, which may go between any two of them.
#![tactic(auto)]

ghost use Rattle.std.specs.Prelude.{◌≡◌};
ghost use Rattle.power.specs.Power.{lasts, lit, made, spent};

use journal::Stop;

/// Takes the power of one store, of what it still lasts, or of no limit.
pub fn spend(power: &mut Option<u64>) -> Result<(), Stop>
    ensures answer { result ≡ lit (lasts 1 power.old) }
    ensures left { power.new ≡ spent 1 power.old }
{
    if let Some(stores) = *power {
        *power = Some(stores.checked_sub(1).ok_or(Stop::Off)?);
    }
    Ok(())
}

/// Takes the power of so many stores, as far as it lasts, and answers for how many it did.
pub fn draw(power: &mut Option<u64>, stores: usize) -> usize
    ensures answer { result ≡ made stores power.old }
    ensures left { power.new ≡ spent stores power.old }
{
    let Some(left) = *power else {
        return stores;
    };
    *power = Some(left.saturating_sub(stores as u64));
    stores.min(left as usize)
}
