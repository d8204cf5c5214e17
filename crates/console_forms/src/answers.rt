//! What is answered to a line.

/// What is answered to a line.
#[derive(Drop)]
pub enum Answer {
    /// What these bytes say as a record.
    Record(Vec<u8>),
    /// What these bytes say as a message.
    Message(Vec<u8>),
    /// The bytes of what was said in words.
    Written(Vec<u8>),
}
