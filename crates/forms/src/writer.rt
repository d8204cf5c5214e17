//! A cursor over a lent buffer that is written.
#![tactic(auto, using(crate::proofs::Lengths::lengths))]

ghost use Rattle.std.specs.Prelude.{◌≡◌, ◌+◌, ◌<◌, ◌≤◌, [], ◌∷◌, length};
ghost use Rattle.forms.specs.Uint.{spell};
ghost use Rattle.forms.specs.Kinds.{code_of};
ghost use Rattle.forms.specs.Cursor.{Puts, HasRoom};
ghost use Rattle.forms.specs.Writing.{write, write_ack, write_message};
ghost use Rattle.forms.specs.Typed.{ack_from, activity_from, message_from};

use crate::kinds::Kind;
use crate::written::{NewAck, NewActivity, NewTipAck};

/// A lent buffer that is written from its first byte on.
#[derive(Drop)]
pub(crate) struct Writer<'a> {
    /// The buffer.
    pub(crate) out: &'a mut [u8],
    /// How many of its bytes are written.
    pub(crate) at: usize,
}

impl<'a> Writer<'a> {
    /// A cursor at the first byte of `out`.
    pub(crate) fn new(out: &'a mut [u8]) -> Self
        ensures same_buffer { result.out.ghost_name ≡ out.entry.ghost_name }
        ensures unchanged { result.out.now ≡ out.old }
        ensures first { result.at ≡ 0 }
    {
        Writer { out, at: 0 }
    }

    /// Writes one byte.
    fn byte(&mut self, byte: u8)
        requires { HasRoom 1 self.old }
        ensures { Puts (byte ∷ []) self.old self.new }
    {
        self.out[self.at] = byte;
        self.at += 1;
    }

    /// Writes the byte of a kind.
    pub(crate) fn kind(&mut self, kind: Kind)
        requires { HasRoom 1 self.old }
        ensures { Puts (code_of kind ∷ []) self.old self.new }
    {
        self.byte(kind.into());
    }

    /// Writes `n`, group by group.
    #[inline(always)]
    pub(crate) fn uint(&mut self, n: u64)
        requires { HasRoom (length (spell n)) self.old }
        ensures { Puts (spell n) self.old self.new }
    {
        let mut left = n;
        while left >= 128 {
            self.byte((left % 128) as u8 + 128);
            left /= 128;
        }
        self.byte(left as u8);
    }

    /// Writes these bytes as they are.
    #[inline(always)]
    pub(crate) fn bytes(&mut self, bytes: &[u8])
        requires { HasRoom (length bytes.now) self.old }
        ensures { Puts bytes.now self.old self.new }
    {
        let end = self.at + bytes.len();
        self.out[self.at..end].copy_from_slice(bytes);
        self.at = end;
    }

    /// Writes an ack.
    #[inline(always)]
    pub(crate) fn ack(&mut self, ack: &NewAck<'_>)
        requires { HasRoom (length (write_ack (ack_from ack.now))) self.old }
        ensures { Puts (write_ack (ack_from ack.now)) self.old self.new }
    {
        self.uint(ack.height.0);
        self.bytes(&ack.digest.bytes);
        self.uint(ack.epoch.0);
        self.uint(ack.signer.0);
        self.bytes(&ack.signature.bytes);
    }

    /// Writes a record: the byte of its kind, and its body.
    pub(crate) fn activity(&mut self, activity: &NewActivity<'_>)
        requires { HasRoom (length (write (activity_from activity.now))) self.old }
        ensures { Puts (write (activity_from activity.now)) self.old self.new }
    {
        match activity {
            NewActivity::Ack(ack) => {
                self.kind(Kind::Ack);
                self.ack(ack);
            }
            NewActivity::Certified(certified) => {
                self.kind(Kind::Certified);
                self.uint(certified.height.0);
                self.bytes(&certified.digest.bytes);
                self.bytes(certified.certificate);
            }
            NewActivity::Tip(tip) => {
                self.kind(Kind::Tip);
                self.uint(tip.0);
            }
        }
    }

    /// Writes a message: a tip, and an ack.
    pub(crate) fn message(&mut self, message: &NewTipAck<'_>)
        requires { HasRoom (length (write_message (message_from message.now))) self.old }
        ensures { Puts (write_message (message_from message.now)) self.old self.new }
    {
        self.uint(message.tip.0);
        self.ack(&message.ack);
    }
}
