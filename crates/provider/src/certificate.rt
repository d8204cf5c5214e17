//! A certificate, held by value.
ghost use Rattle.std.specs.Prelude.{◌≤◌};

/// At most 1,026 bytes that show that a quorum signed.
// kept: an array with its length beside it, since `Copy` was promised, and an `ArrayVec` has none; one `Copy` vector for this and for
// the signers of a map would need a `Clone` by hand, as `Bytes` does, and is longer than both
#[derive(Clone, Copy, Debug)]
pub struct Certificate {
    /// The certificate's bytes, and behind them what does not belong to it.
    pub bytes: [u8; 1026],
    /// How many of the bytes are the certificate.
    pub len: usize,
    ghost within: { len ≤ 1026 },
}
