//! How a certificate is made of signatures.
ghost use Rattle.std.specs.Prelude.{◌≡◌, map};
ghost use Rattle.provider.specs.Values.{attested, assembled};
ghost use Rattle.mapped.specs.Certificates.{assemble_for};

use crate::Body;
use provider::{Attestation, Certificate};

/// The certificate that the signatures make, where they are of n − f or more of `n` signers in ascending order.
pub fn certificate<B: Body>(n: usize, attestations: &[Attestation]) -> Option<Certificate>
    ensures { assembled result ≡ assemble_for B.meaning.body n (map attested attestations.now) }
{
    let signers = bitmaps::bitmap(n, attestations)?;
    let mut certificate = Certificate {
        bytes: [0; 1026],
        len: 0,
    };
    bitmaps::append(&mut certificate, &signers.to_be_bytes());
    B::write(attestations, &mut certificate);
    Some(certificate)
}
