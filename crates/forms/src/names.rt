//! Fields and errors in words.
ghost use Rattle.std.specs.Prelude.{◌++◌, Some};
ghost use Rattle.forms.specs.Names.{field_name, fault_text, short_text};

use crate::faults::{Fault, Field, Short};
use std::error::Error;
use std::fmt;

// kept: these impls by hand, since thiserror's derive promises nothing of what it prints
impl fmt::Display for Field {
    ghost output = { λ f. Some (field_name f) };

    fn fmt<W: fmt::Write>(&self, f: &mut fmt::Formatter<W>) -> fmt::Result {
        f.write_str(match self {
            Field::Kind => "kind",
            Field::Height => "height",
            Field::Digest => "digest",
            Field::Epoch => "epoch",
            Field::Signer => "signer",
            Field::Signature => "signature",
            Field::Tip => "tip",
            Field::End => "end",
        })
    }
}

impl fmt::Display for Fault {
    ghost output = { λ e. Some (fault_text e) };

    fn fmt<W: fmt::Write>(&self, f: &mut fmt::Formatter<W>) -> fmt::Result {
        write!(f, "{} at {}", self.field, self.at)
    }
}

impl fmt::Display for Short {
    ghost output = { λ _. Some short_text };

    fn fmt<W: fmt::Write>(&self, f: &mut fmt::Formatter<W>) -> fmt::Result {
        f.write_str("the buffer is too short")
    }
}

impl Error for Fault {}

impl Error for Short {}
