//! Writing: each form into a lent buffer, from its first byte on; a buffer that is too short stays as it was.
#![tactic(auto, using(crate::proofs::Lengths::lengths))]

ghost use Rattle.std.specs.Prelude.{◌≡◌, ℕ, ◌+◌, ◌<◌, ◌≤◌, length};
ghost use Rattle.forms.specs.Uint.{spell};
ghost use Rattle.forms.specs.Values.{tip as tip_value};
ghost use Rattle.forms.specs.Writing.{write, write_message, fitted, laid};
ghost use Rattle.forms.specs.Typed.{activity_from, message_from, AckLen, CertifiedLen, MessageLen};

use crate::faults::Short;
use crate::writer::Writer;
use crate::written::{NewActivity, NewTipAck};
use types::{Epoch, Height, Participant};

/// How many bytes spell `n`.
fn uint_len(n: u64) -> usize
    ensures len { result ≡ length (spell n) }
    ensures few { result ≤ 10 }
{
    (70 - n.max(1).leading_zeros() as usize) / 7
}

// kept: a length is asked for before there are a digest and a signature, so these take no `NewAck`, which holds them.
/// How many bytes the record of an ack takes.
pub fn ack_len(height: Height, epoch: Epoch, signer: Participant) -> usize
    ensures { AckLen height epoch signer result }
{
    1 + uint_len(height.0) + 32 + uint_len(epoch.0) + uint_len(signer.0) + 64
}

/// How many bytes the record of a certificate takes.
pub fn certified_len(height: Height, certificate: &[u8]) -> usize
    ensures { CertifiedLen height certificate.now result }
{
    1 + uint_len(height.0) + 32 + certificate.len()
}

/// How many bytes the record of a tip takes.
pub fn tip_len(tip: Height) -> usize
    ensures { result ≡ length (write (tip_value tip.0)) }
{
    1 + uint_len(tip.0)
}

/// How many bytes a message takes.
pub fn message_len(tip: Height, height: Height, epoch: Epoch, signer: Participant) -> usize
    ensures { MessageLen tip height epoch signer result }
{
    uint_len(tip.0) + uint_len(height.0) + 32 + uint_len(epoch.0) + uint_len(signer.0) + 64
}

/// How many bytes a record takes.
fn activity_len(activity: &NewActivity<'_>) -> usize
    ensures { result ≡ length (write (activity_from activity.now)) }
{
    match activity {
        NewActivity::Ack(ack) => ack_len(ack.height, ack.epoch, ack.signer),
        NewActivity::Certified(certified) => certified_len(certified.height, certified.certificate),
        NewActivity::Tip(tip) => tip_len(*tip),
    }
}

/// How many bytes a message takes.
fn tip_ack_len(message: &NewTipAck<'_>) -> usize
    ensures { result ≡ length (write_message (message_from message.now)) }
{
    let ack = &message.ack;
    message_len(message.tip, ack.height, ack.epoch, ack.signer)
}

// kept: two functions, here and with the lengths and the cursor: a trait for what is written, with its meaning, is longer than both
/// Writes a record, and answers how many bytes it took. Numbers past the limits of a record are written all the same,
/// and such a record is not read back.
pub fn write_activity(out: &mut [u8], activity: &NewActivity<'_>) -> Result<usize, Short>
    ensures answer { result ≡ fitted (write (activity_from activity.now)) out.old }
    ensures after { out.new ≡ laid (write (activity_from activity.now)) out.old }
{
    if activity_len(activity) > out.len() {
        return Err(Short);
    }
    let mut writer = Writer::new(out);
    writer.activity(activity);
    Ok(writer.at)
}

/// Writes a message, and answers how many bytes it took. A signer past 15 is written all the same, and such a message is not
/// read back.
pub fn write_message(out: &mut [u8], message: &NewTipAck<'_>) -> Result<usize, Short>
    ensures answer { result ≡ fitted (write_message (message_from message.now)) out.old }
    ensures after { out.new ≡ laid (write_message (message_from message.now)) out.old }
{
    if tip_ack_len(message) > out.len() {
        return Err(Short);
    }
    let mut writer = Writer::new(out);
    writer.message(message);
    Ok(writer.at)
}
