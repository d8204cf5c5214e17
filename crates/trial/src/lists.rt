//! What a list of epochs answers of keys, own signers and signatures.
ghost use Rattle.std.specs.Prelude.{◌≡◌, ◌<◌, [], IfSome};
ghost use Rattle.provider.specs.Laws.{position_in};
ghost use Rattle.provider.specs.Values.{lent_keys, number, signed};
ghost use Rattle.trial.specs.Fits.{Fit};
ghost use Rattle.trial.specs.Lends.{Lent};
ghost use Rattle.trial.specs.Sets.{set_at};
ghost use Rattle.trial.specs.Trials.{keys_at, own_at, accepts_at, sign_at};

use crate::list_faults::check;
use crate::{EpochList, EpochSet, ListFault};
use types::{Epoch, Item, Participant, PublicKey, Signature};

impl<'a> EpochList<'a> {
    /// A list of no epochs.
    pub fn new() -> Self
        ensures { result.sets.now ≡ [] }
    {
        EpochList { sets: &[] }
    }

    /// Takes a list of epochs in place of the one held; a list with a fault is refused, and nothing changes.
    pub fn lend(&mut self, sets: &'a [EpochSet<'a>]) -> Result<(), ListFault>
        ensures { Lent self.old.sets.now sets.now result self.new.sets.now }
    {
        check(sets)?;
        self.sets = sets;
        Ok(())
    }

    /// The set of `epoch`, if it is known.
    pub fn find(&self, epoch: Epoch) -> Option<EpochSet<'a>>
        ensures found { result ≡ set_at epoch.0 self.now.sets.now }
        ensures fit { IfSome result Fit }
    {
        self.sets.iter().copied().find(|set| set.epoch == epoch)
    }

    /// The keys of `epoch`, if it is known.
    pub fn keys(&self, epoch: Epoch) -> Option<&[PublicKey]>
        ensures { lent_keys result ≡ keys_at self.now.sets.now epoch.0 }
    {
        Some(self.find(epoch)?.keys)
    }

    /// The signer that `key` is in `epoch`, if it is one.
    pub fn position(&self, epoch: Epoch, key: &PublicKey) -> Option<Participant>
        ensures { number result ≡ position_in key.now.bytes (keys_at self.now.sets.now epoch.0) }
    {
        provider::position(self.find(epoch)?.keys, key)
    }

    /// The own signer of `epoch`, if there is one.
    pub fn me(&self, epoch: Epoch) -> Option<Participant>
        ensures own { number result ≡ own_at self.now.sets.now epoch.0 }
        ensures below { IfSome result (λ p. p.0 < 16) }
    {
        self.find(epoch)?.me
    }

    /// Whether `signature` is that of a signer of `epoch` for the item.
    pub fn accepts(&self, epoch: Epoch, signer: Participant, item: &Item, signature: &[u8]) -> bool
        ensures { result ≡ accepts_at self.now.sets.now epoch.0 signer.0 item.now.height.0 item.now.digest.now signature.now }
    {
        let Some(set) = self.find(epoch) else {
            return false;
        };
        signer.0 < set.keys.len() as u64 && tags::accepted(signer.0 as u8, item, signature)
    }

    /// The own signature for the item, where `epoch` has an own signer.
    pub fn sign(&self, epoch: Epoch, item: &Item) -> Option<Signature>
        ensures { signed result ≡ sign_at self.now.sets.now epoch.0 item.now.height.0 item.now.digest.now }
    {
        let me = self.me(epoch)?;
        Some(tags::signature(tags::tag(me.0 as u8, item)))
    }
}
