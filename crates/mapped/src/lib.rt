//! The providers whose certificates begin with a map of their signers: all that they have in common.
#![tactic(auto)]

ghost use Rattle.std.specs.Prelude.{◌≡◌, ◌≤◌, ◌++◌, map, length};
ghost use Rattle.provider.specs.Values.{attested, certified};
ghost use Rattle.trial.specs.Sets.{set_at};
ghost use Rattle.mapped.specs.Bodies.{Meaning, Fitting};

mod answers;
mod certificates;
mod judges;
mod mapped_provider;

pub use certificates::certificate;
pub use mapped_provider::MappedProvider;
use provider::{Attestation, Certificate};
use trial::EpochList;
use types::{Epoch, Item};

/// What stands behind the map in a certificate.
pub trait Body {
    ghost meaning: { Meaning };

    // What each body owes: it has room, and is right where it is made of accepted signatures.
    ghost fitting: { Fitting meaning };

    /// How many bytes the body of a certificate of `signers` signers has.
    fn size(signers: usize) -> usize
        requires { signers ≤ 16 }
        ensures { result ≡ meaning.size signers };

    /// Writes the body that the signatures make behind what the certificate holds.
    fn write(attestations: &[Attestation], certificate: &mut Certificate)
        requires few { length attestations.now ≤ 16 }
        requires room { length (certified certificate.old) ≤ 2 }
        ensures { certified certificate.new ≡ certified certificate.old ++ meaning.body (map attested attestations.now) };

    /// Whether a body of the right length shows that these signers of `epoch` signed the item.
    fn is_good(epochs: &EpochList, epoch: Epoch, item: &Item, signers: &[u8], body: &[u8]) -> bool
        requires { length body.now ≡ meaning.size (length signers.now) }
        ensures { result ≡ meaning.good (set_at epoch.0 epochs.now.sets.now) item.now.height.0 item.now.digest.now signers.now body.now };
}
