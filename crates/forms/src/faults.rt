//! What can be wrong with bytes that are read, or with a buffer that is to be written.

/// A field of a message or a record.
#[derive(Clone, Copy, Debug, PartialEq, Eq)]
pub enum Field {
    /// The first byte of a record, which says what follows.
    Kind,
    /// The height of an ack or of a certificate.
    Height,
    /// The digest that is signed.
    Digest,
    /// The epoch of an ack.
    Epoch,
    /// The number of the signer of an ack.
    Signer,
    /// The signature of an ack.
    Signature,
    /// The tip of a message or of a record.
    Tip,
    /// Where the message or the record has to end.
    End,
}

/// Where reading stopped: the field, and the first byte that is missing, wrong or left over.
///
/// The bytes before `at` begin some message (or record); with the byte at `at` they begin none.
#[derive(Clone, Copy, Debug, PartialEq, Eq)]
pub struct Fault {
    /// The field in which reading stopped.
    pub field: Field,
    /// The place of the byte.
    pub at: usize,
}

/// The buffer is too short for what was to be written; nothing was written.
#[derive(Clone, Copy, Debug, PartialEq, Eq)]
pub struct Short;
