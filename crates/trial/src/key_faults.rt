//! What is wrong with the signers of one epoch.
ghost use Rattle.std.specs.Prelude.{◌≡◌};
ghost use Rattle.provider.specs.Values.{key_bytes};
ghost use Rattle.trial.specs.Faults.{checked, neighbour_fault, keys_fault, own_fault, set_fault};

use crate::{EpochSet, Fault};
use table::Key;
use types::{Participant, PublicKey};

/// Refuses the key `high` at place `at` where it is not above `low`, the one before it.
fn check_neighbour(at: usize, low: &PublicKey, high: &PublicKey) -> Result<(), Fault>
    ensures { result ≡ checked (neighbour_fault at low.now.bytes high.now.bytes) }
{
    if low.same(high) {
        Err(Fault::EqualKeys(at))
    } else if low.before(high) {
        Ok(())
    } else {
        Err(Fault::UnsortedKeys(at))
    }
}

/// Refuses keys that do not ascend.
fn check_keys(keys: &[PublicKey]) -> Result<(), Fault>
    ensures { result ≡ checked (keys_fault (key_bytes keys.now)) }
{
    for (i, pair) in keys.windows(2).enumerate() {
        check_neighbour(i + 1, &pair[0], &pair[1])?;
    }
    Ok(())
}

/// Refuses an own signer that is none of `n`.
fn check_own(n: usize, me: Option<Participant>) -> Result<(), Fault>
    ensures { result ≡ checked (own_fault n me) }
{
    if me.is_some_and(|signer| signer.0 >= n as u64) {
        return Err(Fault::OwnSigner);
    }
    Ok(())
}

/// Refuses a set that has a fault by itself.
pub(crate) fn check_set(set: &EpochSet) -> Result<(), Fault>
    ensures { result ≡ checked (set_fault set.now) }
{
    let n = set.keys.len();
    if n < 2 {
        return Err(Fault::FewKeys);
    }
    if n > 16 {
        return Err(Fault::ManyKeys);
    }
    check_keys(set.keys)?;
    check_own(n, set.me)
}
