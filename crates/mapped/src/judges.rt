//! Which certificates are accepted, and why another is not.
ghost use Rattle.std.specs.Prelude.{◌≡◌, ◌≤◌, length};
ghost use Rattle.trial.specs.Faults.{checked};
ghost use Rattle.mapped.specs.Mapping.{body_rejected, rejected};

use crate::{Body, MappedProvider};
use bitmaps::Rejection;
use types::{Epoch, Item};

impl<B: Body> MappedProvider<'_, B> {
    /// Refuses what stands behind the map of these signers, of `n`, for the first reason against it.
    fn check_body(
        &self,
        n: usize,
        epoch: Epoch,
        item: &Item,
        signers: &[u8],
        body: &[u8],
    ) -> Result<(), Rejection>
        requires { length signers.now ≤ 16 }
        ensures { result ≡ checked (body_rejected B.meaning self.now.epochs.sets.now epoch.0 item.now.height.0 item.now.digest.now n signers.now body.now) }
    {
        if !bitmaps::all_below(n, signers) {
            return Err(Rejection::SignerOutside);
        }
        if signers.len() < tips::quorum(n) {
            return Err(Rejection::TooFew);
        }
        if body.len() != B::size(signers.len()) {
            return Err(Rejection::WrongLength);
        }
        if !B::is_good(&self.epochs, epoch, item, signers, body) {
            return Err(Rejection::BadSignature);
        }
        Ok(())
    }

    /// Refuses a certificate for the first reason against it, if there is one.
    pub fn check(&self, epoch: Epoch, item: &Item, certificate: &[u8]) -> Result<(), Rejection>
        ensures { result ≡ checked (rejected B.meaning self.now.epochs.sets.now epoch.0 item.now.height.0 item.now.digest.now certificate.now) }
    {
        let Some(set) = self.epochs.find(epoch) else {
            return Err(Rejection::UnknownEpoch);
        };
        let [high, low, body @ ..] = certificate else {
            return Err(Rejection::NoMap);
        };
        let signers = bitmaps::signers(u16::from_be_bytes([*high, *low]));
        self.check_body(set.keys.len(), epoch, item, signers.as_slice(), body)
    }
}
