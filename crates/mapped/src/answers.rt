//! The answers of every provider whose certificates begin with a map.
ghost use Rattle.mapped.specs.Keeping.{keeps};
ghost use Rattle.mapped.specs.Mapping.{mapped};

use crate::{Body, MappedProvider, certificate};
use provider::{Attestation, Certificate, Provider};
use types::{Epoch, Item, Participant, PublicKey, Signature};

impl<B: Body> Provider for MappedProvider<'_, B> {
    ghost meaning = { λ p. mapped B.meaning p.epochs.sets.now };

    ghost lawful = { λ p. keeps B.meaning B.fitting p.epochs.sets.now p.epochs.sound };

    fn keys(&self, epoch: Epoch) -> Option<&[PublicKey]> {
        self.epochs.keys(epoch)
    }

    fn position(&self, epoch: Epoch, key: &PublicKey) -> Option<Participant> {
        self.epochs.position(epoch, key)
    }

    fn accepts(&self, epoch: Epoch, signer: Participant, item: &Item, signature: &[u8]) -> bool {
        self.epochs.accepts(epoch, signer, item, signature)
    }

    fn valid(&self, epoch: Epoch, item: &Item, certificate: &[u8]) -> bool {
        self.check(epoch, item, certificate).is_ok()
    }

    fn me(&self, epoch: Epoch) -> Option<Participant> {
        self.epochs.me(epoch)
    }

    fn sign(&self, epoch: Epoch, item: &Item) -> Option<Signature> {
        self.epochs.sign(epoch, item)
    }

    fn assemble(&self, epoch: Epoch, attestations: &[Attestation]) -> Option<Certificate> {
        certificate::<B>(self.epochs.find(epoch)?.keys.len(), attestations)
    }
}
