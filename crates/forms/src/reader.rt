//! A cursor over the bytes that are read.
ghost use Rattle.std.specs.Prelude.{◌≡◌, ◌+◌, ◌^◌, ◌<◌, ◌≤◌, length, drop, nat_lt};
ghost use Rattle.forms.specs.Uint.{wrong};
ghost use Rattle.forms.specs.Reading.{number, part, ack_up_to, ended, bytes_from};
ghost use Rattle.forms.specs.Borrowed.{piece, told_part, told_ack, Takes};

use crate::faults::{Fault, Field};
use crate::parts::{Ack, Part};
use crate::sizes::MAX_SIGNER;
use std::marker::Model;
use types::{Epoch, Height, Participant};

/// What is left of the bytes that are read, and its place in them.
#[derive(Drop)]
pub(crate) struct Reader<'a> {
    /// The bytes that are left.
    left: Part<'a>,
}

impl<'a> Model for Reader<'a> {
    ghost use Rattle.std.specs.Prelude.{◌^◌, ◌<◌};
    ghost use Rattle.forms.specs.Reading.{Piece};
    ghost use Rattle.forms.specs.Borrowed.{piece, end};

    ghost Value = { Piece };

    ghost view = { λ r. piece r.left };

    ghost invariant = { λ r. end r.left < 2 ^ 64 };
}

/// Whether no number up to `room` goes on with `group` after `k` groups.
fn wrong_group(k: usize, room: u64, group: u64) -> bool
    ensures { result ≡ wrong (nat_lt 0 k) room group }
{
    k > 0 && group == 0 || group > room
}

impl<'a> Reader<'a> {
    /// A cursor at the first of these bytes, which stands at `at`.
    pub(crate) fn new(bytes: &'a [u8], at: usize) -> Self
        requires { at + length bytes.now < 2 ^ 64 }
        ensures { result ≡ bytes_from bytes.now at }
    {
        Reader {
            left: Part { bytes, at },
        }
    }

    /// Leaves the next `n` bytes out.
    fn skip(&mut self, n: usize)
        requires { n ≤ length self.old.bytes }
        ensures { self.new ≡ bytes_from (drop n self.old.bytes) (self.old.at + n) }
    {
        self.left = Part {
            bytes: &self.left.bytes[n..],
            at: self.left.at + n,
        };
    }

    /// The number up to `most` that comes next.
    pub(crate) fn number(&mut self, field: Field, most: u64) -> Result<u64, Fault>
        ensures { Takes (number field most) self.old result self.new }
    {
        let Part { bytes, at } = self.left;
        let mut value: u64 = 0;
        let mut place: u64 = 1;
        let mut room = most;
        for (k, byte) in bytes.iter().enumerate() {
            let group = *byte as u64;
            if wrong_group(k, room, group) {
                return Err(Fault { field, at: at + k });
            }
            if group < 128 {
                value += group * place;
                self.skip(k + 1);
                return Ok(value);
            }
            let low = group - 128;
            value += low * place;
            room = (room - low) / 128;
            place *= 128;
        }
        Err(Fault {
            field,
            at: at + bytes.len(),
        })
    }

    /// The `n` bytes that come next.
    pub(crate) fn part(&mut self, field: Field, n: usize) -> Result<Part<'a>, Fault>
        ensures { Takes (part field n) self.old (told_part result) self.new }
    {
        let Part { bytes, at } = self.left;
        if n > bytes.len() {
            return Err(Fault {
                field,
                at: at + bytes.len(),
            });
        }
        self.skip(n);
        Ok(Part {
            bytes: &bytes[..n],
            at,
        })
    }

    /// The ack of a height up to `most` that comes next.
    #[inline(always)]
    pub(crate) fn ack(&mut self, most: u64) -> Result<Ack<'a>, Fault>
        ensures { Takes (ack_up_to most) self.old (told_ack result) self.new }
    {
        let height = self.number(Field::Height, most)?;
        let digest = self.part(Field::Digest, 32)?;
        let epoch = self.number(Field::Epoch, u64::MAX)?;
        let signer = self.number(Field::Signer, MAX_SIGNER)?;
        let signature = self.part(Field::Signature, 64)?;
        Ok(Ack {
            height: Height::new(height),
            digest,
            epoch: Epoch::new(epoch),
            signer: Participant::new(signer),
            signature,
        })
    }

    /// All that is left.
    pub(crate) fn rest(self) -> Part<'a>
        ensures { piece result ≡ self.entry }
    {
        self.left
    }

    /// Whether nothing is left.
    pub(crate) fn end(&self) -> Result<(), Fault>
        ensures { result ≡ ended tt self.now }
    {
        if self.left.bytes.is_empty() {
            Ok(())
        } else {
            Err(Fault {
                field: Field::End,
                at: self.left.at,
            })
        }
    }
}
