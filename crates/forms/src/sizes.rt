//! The largest numbers that the forms hold, and the largest sizes that follow from them.
ghost use Rattle.forms.specs.Sizes.{Largest};

use crate::measures::Sizes;

/// The highest height, and the highest tip, of a record: messages stay below 2^62, and what follows from them passes it by few.
pub const MAX_RECORD_HEIGHT: u64 = 0x4000_0000_0000_000f;

/// The highest number of a signer: a set has at most sixteen.
pub const MAX_SIGNER: u64 = 15;

/// The longest certificate: two bytes that map the signers, and a signature of 64 bytes from each of sixteen.
pub const MAX_CERTIFICATE: usize = 1_026;

/// The longest record of a tip: the kind, and a height of 63 bits in nine groups.
pub const MAX_TIP: usize = 10;

/// The longest record of an ack: the kind, a height in nine groups, the digest, an epoch of 64 bits in ten groups, a signer in
/// one, and the signature.
pub const MAX_ACK: usize = 117;

/// The longest record: the kind, a height in nine groups, the digest, and the longest certificate.
pub const MAX_RECORD: usize = 42 + MAX_CERTIFICATE;

/// The longest message: a tip, a height and an epoch of 64 bits in ten groups each, the digest, a signer in one group, and the
/// signature.
pub const MAX_MESSAGE: usize = 127;

/// The largest size of each form.
pub const fn largest() -> Sizes
    ensures { Largest result }
{
    Sizes {
        tip: MAX_TIP,
        ack: MAX_ACK,
        certified: MAX_RECORD,
        message: MAX_MESSAGE,
    }
}
