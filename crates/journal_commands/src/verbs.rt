//! The words that lines about journals begin with.
ghost use Rattle.std.specs.Prelude.{◌≡◌};
ghost use Rattle.journal_commands.specs.Reading.{verb_of};

/// The first word of a line about journals.
#[derive(Clone, Copy, Debug, PartialEq, Eq)]
pub enum Verb {
    /// `journal`
    Journal,
    /// `append`
    Append,
    /// `sync`
    Sync,
    /// `sync-all`
    SyncAll,
    /// `prune`
    Prune,
    /// `read`
    Read,
    /// `power`
    Power,
    /// `cut`
    Cut,
    /// `damage`
    Damage,
    /// `bytes`
    Bytes,
}

impl Verb {
    // The verb of this name, if there is one.
    pub(crate) fn named(name: &[u8]) -> Option<Verb>
        ensures { result ≡ verb_of name.now }
    {
        if name == b"journal".as_slice() {
            Some(Self::Journal)
        } else if name == b"append".as_slice() {
            Some(Self::Append)
        } else if name == b"sync".as_slice() {
            Some(Self::Sync)
        } else if name == b"sync-all".as_slice() {
            Some(Self::SyncAll)
        } else if name == b"prune".as_slice() {
            Some(Self::Prune)
        } else if name == b"read".as_slice() {
            Some(Self::Read)
        } else if name == b"power".as_slice() {
            Some(Self::Power)
        } else if name == b"cut".as_slice() {
            Some(Self::Cut)
        } else if name == b"damage".as_slice() {
            Some(Self::Damage)
        } else if name == b"bytes".as_slice() {
            Some(Self::Bytes)
        } else {
            None
        }
    }
}
