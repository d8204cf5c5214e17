//! Reading: one pass over the bytes, with no copy, field after field.
ghost use Rattle.std.specs.Prelude.{◌≡◌};
ghost use Rattle.forms.specs.Reading.{ack_body, certified_body, tip_body, record_at, message_at};
ghost use Rattle.forms.specs.Borrowed.{told, told_message};

use crate::faults::{Fault, Field};
use crate::kinds::{Kind, NoKind};
use crate::parts::{Activity, Certified, TipAck};
use crate::reader::Reader;
use crate::sizes::MAX_RECORD_HEIGHT;
use types::Height;

/// An ack, and nothing behind it.
fn ack_body<'a>(mut body: Reader<'a>) -> Result<Activity<'a>, Fault>
    ensures { told result ≡ ack_body body.entry }
{
    let ack = body.ack(MAX_RECORD_HEIGHT)?;
    body.end()?;
    Ok(Activity::Ack(ack))
}

/// A height, its digest, and all that is left as their certificate.
fn certified_body<'a>(mut body: Reader<'a>) -> Result<Activity<'a>, Fault>
    ensures { told result ≡ certified_body body.entry }
{
    let height = body.number(Field::Height, MAX_RECORD_HEIGHT)?;
    let digest = body.part(Field::Digest, 32)?;
    Ok(Activity::Certified(Certified {
        height: Height::new(height),
        digest,
        certificate: body.rest(),
    }))
}

/// A tip, and nothing behind it.
fn tip_body<'a>(mut body: Reader<'a>) -> Result<Activity<'a>, Fault>
    ensures { told result ≡ tip_body body.entry }
{
    let tip = body.number(Field::Tip, MAX_RECORD_HEIGHT)?;
    body.end()?;
    Ok(Activity::Tip(Height::new(tip)))
}

/// Reads a record: one kind byte, and then the body that it announces.
#[tactic(auto, using(crate::proofs::Ends::record_none))]
pub fn read_activity<'a>(record: &'a [u8]) -> Result<Activity<'a>, Fault>
    ensures { told result ≡ record_at «record».now }
{
    let [code, rest @ ..] = record else {
        return Err(NoKind.into());
    };
    let body = Reader::new(rest, 1);
    match Kind::try_from(*code)? {
        Kind::Ack => ack_body(body),
        Kind::Certified => certified_body(body),
        Kind::Tip => tip_body(body),
    }
}

/// Reads a message: a tip, an ack, and nothing behind them.
#[tactic(auto, unfolding(crate::specs::Reading::message_at))]
pub fn read_message<'a>(message: &'a [u8]) -> Result<TipAck<'a>, Fault>
    ensures { told_message result ≡ message_at message.now }
{
    let mut reader = Reader::new(message, 0);
    let tip = reader.number(Field::Tip, u64::MAX)?;
    let ack = reader.ack(u64::MAX)?;
    reader.end()?;
    Ok(TipAck {
        tip: Height::new(tip),
        ack,
    })
}
