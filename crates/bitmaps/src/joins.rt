//! From signers to their map, and to a certificate.
ghost use Rattle.std.specs.Prelude.{◌≡◌, ◌+◌, ◌^◌, ◌<◌, ◌&&◌, nat_le, nat_lt};
ghost use Rattle.bitmaps.specs.Attested.{signers_in};
ghost use Rattle.bitmaps.specs.Maps.{map_for};
ghost use Rattle.bitmaps.specs.Parts.{placed_at, appended};
ghost use Rattle.provider.specs.Values.{certified};

use provider::{Attestation, Certificate};

/// Whether the signer may come next: it is `next` or above, and below `n`.
fn in_turn(next: u64, n: usize, signer: u64) -> bool
    ensures { result ≡ (nat_le next signer && nat_lt signer n) }
{
    next <= signer && signer < n as u64
}

/// The map with one more signer, above all of its own.
fn with_signer(map: u16, signer: u64) -> u16
    requires { (signer < 16) × (map < 2 ^ signer) }
    ensures { result ≡ map + 2 ^ signer }
{
    map | (1 << signer)
}

/// The map of the signers, where they are n − f or more of `n`, in ascending order.
pub fn bitmap(n: usize, attestations: &[Attestation]) -> Option<u16>
    ensures { result ≡ map_for n (signers_in attestations.now) }
{
    if n > 16 || attestations.len() < tips::quorum(n) {
        return None;
    }
    let mut next = 0;
    let mut map = 0;
    for attestation in attestations {
        let signer = attestation.signer.0;
        if !in_turn(next, n, signer) {
            return None;
        }
        map = with_signer(map, signer);
        next = signer + 1;
    }
    Some(map)
}

/// Writes a part of a certificate at its place; nothing where there is no room for it.
pub fn place(bytes: &mut [u8], at: usize, part: &[u8])
    ensures { bytes.new ≡ placed_at at part.now bytes.old }
{
    if at <= bytes.len() && part.len() <= bytes.len() - at {
        bytes[at..at + part.len()].copy_from_slice(part);
    }
}

/// Writes a part behind what the certificate holds; nothing where there is no room for it.
pub fn append(certificate: &mut Certificate, part: &[u8])
    ensures held { certified certificate.new ≡ appended part.now (certified certificate.old) }
    ensures bytes { certificate.new.bytes ≡ placed_at certificate.old.len part.now certificate.old.bytes }
{
    let len = certificate.len;
    if part.len() <= 1026 - len {
        place(&mut certificate.bytes, len, part);
        certificate.len = len + part.len();
    }
}
