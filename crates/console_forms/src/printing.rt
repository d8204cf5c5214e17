//! What is printed of an answer.
ghost use Rattle.std.specs.Prelude.{Some};

use crate::Answer;
use forms::{Ack, Activity, Fault, TipAck, read_activity, read_message};
use std::fmt;
use text::Hex;

/// What an ack says.
#[derive(Clone, Copy)]
struct AckText<'a>(Ack<'a>);

/// What bytes say as a record.
#[derive(Clone, Copy)]
struct RecordText<'a>(Result<Activity<'a>, Fault>);

/// What bytes say as a message.
#[derive(Clone, Copy)]
struct MessageText<'a>(Result<TipAck<'a>, Fault>);

impl fmt::Display for AckText<'_> {
    ghost use Rattle.forms.specs.Borrowed.{ack_of};
    ghost use Rattle.console_forms.specs.Printed.{ack_text};

    ghost output = { λ t. Some (ack_text (ack_of t.0)) };

    fn fmt<W: fmt::Write>(&self, f: &mut fmt::Formatter<W>) -> fmt::Result {
        let Ack {
            height,
            digest,
            epoch,
            signer,
            signature,
        } = self.0;
        write!(
            f,
            "ack height {height} digest {} at {} epoch {epoch} signer {signer} signature {} at {}",
            Hex(digest.bytes),
            digest.at,
            Hex(signature.bytes),
            signature.at
        )
    }
}

impl fmt::Display for RecordText<'_> {
    ghost use Rattle.forms.specs.Borrowed.{told};
    ghost use Rattle.console_forms.specs.Printed.{record_text};

    ghost output = { λ t. Some (record_text (told t.0)) };

    fn fmt<W: fmt::Write>(&self, f: &mut fmt::Formatter<W>) -> fmt::Result {
        match self.0 {
            Ok(Activity::Ack(ack)) => AckText(ack).fmt(f),
            Ok(Activity::Certified(certified)) => write!(
                f,
                "certified height {} digest {} at {} certificate {} at {}",
                certified.height,
                Hex(certified.digest.bytes),
                certified.digest.at,
                Hex(certified.certificate.bytes),
                certified.certificate.at
            ),
            Ok(Activity::Tip(height)) => write!(f, "tip height {height}"),
            Err(fault) => write!(f, "fault {fault}"),
        }
    }
}

impl fmt::Display for MessageText<'_> {
    ghost use Rattle.forms.specs.Borrowed.{told_message};
    ghost use Rattle.console_forms.specs.Printed.{message_text};

    ghost output = { λ t. Some (message_text (told_message t.0)) };

    fn fmt<W: fmt::Write>(&self, f: &mut fmt::Formatter<W>) -> fmt::Result {
        match self.0 {
            Ok(message) => write!(f, "message tip {} {}", message.tip, AckText(message.ack)),
            Err(fault) => write!(f, "fault {fault}"),
        }
    }
}

impl fmt::Display for Answer {
    ghost use Rattle.console_forms.specs.Printed.{answer_line};
    ghost use Rattle.console_forms.specs.Reading.{said};

    ghost output = { λ a. Some (answer_line (said a)) };

    fn fmt<W: fmt::Write>(&self, f: &mut fmt::Formatter<W>) -> fmt::Result {
        match self {
            Self::Record(bytes) => RecordText(read_activity(bytes)).fmt(f),
            Self::Message(bytes) => MessageText(read_message(bytes)).fmt(f),
            Self::Written(bytes) => Hex(bytes).fmt(f),
        }
    }
}
