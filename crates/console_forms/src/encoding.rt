//! The lines that give values.
ghost use Rattle.std.specs.Prelude.{◌≡◌, length, IfOk, vec_items};
ghost use Rattle.fields.specs.Results.{result_map, no_memory, OrNoMemory};
ghost use Rattle.forms.specs.Typed.{ack_from, activity_from, message_from};
ghost use Rattle.forms.specs.Writing.{write, write_message};
ghost use Rattle.console_forms.specs.Reading.{ack_in, tip_in, certified_in, ack_record_in, message_in, encode as encoded, said, values_of, out_of_memory};

use crate::{Answer, Refusal};
use fields::{Fault, Line};
use forms::{
    MAX_CERTIFICATE, MAX_RECORD_HEIGHT, MAX_SIGNER, NewAck, NewActivity, NewCertified, NewTipAck,
    ack_len, certified_len, message_len, tip_len, write_activity, write_message,
};
use std::alloc::{AllocError, Global};
use types::{Digest, Epoch, Height, Participant, Signature};

/// An ack that a line gives in words.
#[derive(Clone, Copy)]
struct SpelledAck {
    height: Height,
    digest: Digest,
    epoch: Epoch,
    signer: Participant,
    signature: Signature,
}

impl SpelledAck {
    /// The ack to write.
    fn lent(&self) -> NewAck<'_>
        ensures { ack_from result ≡ values_of self.now }
    {
        NewAck {
            height: self.height,
            digest: &self.digest,
            epoch: self.epoch,
            signer: self.signer,
            signature: &self.signature,
        }
    }
}

/// The ack of a height up to `most` that the words left spell.
fn ack(mut line: Line<'_>, most: u64) -> Result<SpelledAck, Fault>
    ensures { result_map values_of result ≡ ack_in most line.entry }
{
    let height = line.number(most)?;
    let digest = line.array()?;
    let epoch = line.number(u64::MAX)?;
    let signer = line.number(MAX_SIGNER)?;
    let signature = line.array()?;
    line.end()?;
    Ok(SpelledAck {
        height: Height::new(height),
        digest,
        epoch: Epoch::new(epoch),
        signer: Participant::new(signer),
        signature,
    })
}

/// The bytes of a record that takes `len` bytes.
fn record_bytes(heap: Global, len: usize, activity: &NewActivity<'_>) -> Result<Vec<u8>, AllocError>
    requires { len ≡ length (write (activity_from activity.now)) }
    ensures { IfOk result (λ bytes. bytes.items ≡ write (activity_from activity.now)) }
{
    let mut bytes = vec![in heap; 0u8; len]?;
    write_activity(bytes.as_mut_slice(), activity).unwrap();
    Ok(bytes)
}

/// The bytes of a message that takes `len` bytes.
fn message_bytes(heap: Global, len: usize, message: &NewTipAck<'_>) -> Result<Vec<u8>, AllocError>
    requires { len ≡ length (write_message (message_from message.now)) }
    ensures { IfOk result (λ bytes. bytes.items ≡ write_message (message_from message.now)) }
{
    let mut bytes = vec![in heap; 0u8; len]?;
    write_message(bytes.as_mut_slice(), message).unwrap();
    Ok(bytes)
}

/// The record of the tip that the words left spell.
fn encode_tip(heap: Global, mut line: Line<'_>) -> Result<Vec<u8>, Fault>
    ensures { OrNoMemory no_memory (result_map vec_items result) (result_map write (tip_in line.entry)) }
{
    let tip = Height::new(line.number(MAX_RECORD_HEIGHT)?);
    line.end()?;
    Ok(record_bytes(heap, tip_len(tip), &NewActivity::Tip(tip))?)
}

/// The record of the ack that the words left spell.
fn encode_ack(heap: Global, line: Line<'_>) -> Result<Vec<u8>, Fault>
    ensures { OrNoMemory no_memory (result_map vec_items result) (result_map write (ack_record_in line.entry)) }
{
    let ack = ack(line, MAX_RECORD_HEIGHT)?;
    let len = ack_len(ack.height, ack.epoch, ack.signer);
    Ok(record_bytes(heap, len, &NewActivity::Ack(ack.lent()))?)
}

/// The record of the height and the certificate that the words left spell.
fn encode_certified(heap: Global, mut line: Line<'_>) -> Result<Vec<u8>, Fault>
    ensures { OrNoMemory no_memory (result_map vec_items result) (result_map write (certified_in line.entry)) }
{
    let height = Height::new(line.number(MAX_RECORD_HEIGHT)?);
    let digest: Digest = line.array()?;
    let certificate = line.bytes_up_to(heap, MAX_CERTIFICATE)?;
    line.end()?;
    let certificate = certificate.as_slice();
    let certified = NewCertified {
        height,
        digest: &digest,
        certificate,
    };
    let len = certified_len(height, certificate);
    Ok(record_bytes(heap, len, &NewActivity::Certified(certified))?)
}

/// The message that the words left spell.
fn encode_message(heap: Global, mut line: Line<'_>) -> Result<Vec<u8>, Fault>
    ensures { OrNoMemory no_memory (result_map vec_items result) (result_map write_message (message_in line.entry)) }
{
    let tip = Height::new(line.number(u64::MAX)?);
    let ack = ack(line, u64::MAX)?;
    let len = message_len(tip, ack.height, ack.epoch, ack.signer);
    let message = NewTipAck {
        tip,
        ack: ack.lent(),
    };
    Ok(message_bytes(heap, len, &message)?)
}

/// What is answered to `encode`, by the words behind it.
pub(crate) fn encode(heap: Global, mut line: Line<'_>) -> Result<Answer, Refusal>
    ensures { OrNoMemory out_of_memory (result_map said result) (encoded line.entry) }
{
    let form = line.word()?;
    let bytes = if form == b"tip".as_slice() {
        encode_tip(heap, line)?
    } else if form == b"ack".as_slice() {
        encode_ack(heap, line)?
    } else if form == b"certified".as_slice() {
        encode_certified(heap, line)?
    } else if form == b"message".as_slice() {
        encode_message(heap, line)?
    } else {
        return Err(Refusal::Encode);
    };
    Ok(Answer::Written(bytes))
}
