//! The written forms of messages and records: read in place as parts of the bytes, and written into a lent buffer.
#![tactic(auto)]

mod faults;
mod kinds;
mod measures;
mod names;
mod parts;
mod reader;
mod readers;
mod sizes;
mod writer;
mod writers;
mod written;

pub use faults::{Fault, Field, Short};
pub use measures::Sizes;
pub use parts::{Ack, Activity, Certified, Part, TipAck};
pub use readers::{read_activity, read_message};
pub use sizes::{
    MAX_ACK, MAX_CERTIFICATE, MAX_MESSAGE, MAX_RECORD, MAX_RECORD_HEIGHT, MAX_SIGNER, MAX_TIP,
    largest,
};
pub use writers::{ack_len, certified_len, message_len, tip_len, write_activity, write_message};
pub use written::{NewAck, NewActivity, NewCertified, NewTipAck};
