//! A program over a console: standard input line by line, and a reply to each.
#![tactic(auto)]

use anyhow::{Context, bail};
use std::io::{BufReader, BufWriter, Write};
use std::{env, fs};

mod journal_file;
mod playing;
mod replies;
mod sessions;

use journal_file::JournalFile;
pub use playing::play;
pub use replies::Reply;
pub use sessions::Session;

const HELP: &str = "Reads commands from standard input, one a line, and prints what each did.

signers KEY KEY ..   the signers, by their numbers: 2 to 16, none twice, in any order;
                     the first such line seats them, a later one of as many changes the set
tip KEY HEIGHT       the signer tells that it has reached the height

decode record HEX, decode message HEX
                     what the bytes say as a record or as a message, or the field and the byte
                     at which they stop to say something
encode tip HEIGHT, encode ack HEIGHT DIGEST EPOCH SIGNER SIGNATURE,
encode certified HEIGHT DIGEST CERTIFICATE
                     the bytes of the record
encode message TIP HEIGHT DIGEST EPOCH SIGNER SIGNATURE
                     the bytes of the message

provider listed, provider pooled
                     begins anew with this provider, of no epochs yet
epoch-set E me=K KEY KEY .., epoch-set E me=none KEY KEY ..
                     the signers of epoch E, above all others so far: 2 to 16 keys in ascending order,
                     64 hex digits each, or kN for 31 zero bytes and N; signer K of them is the own one
sign E HEIGHT DIGEST
                     the own signature
accepts E SIGNER HEIGHT DIGEST SIGNATURE
                     whether the signature is accepted
assemble E SIGNER:SIGNATURE ..
                     the certificate that the signatures make
accepts-certificate E HEIGHT DIGEST CERTIFICATE
                     whether the certificate is accepted, or why it is not

journal bytes AREAS, journal slots COUNT
                     begins anew with this journal, which is empty and in memory
journal file PATH AREAS, journal file PATH
                     the same with a byte journal in a file, a new one or one that is there;
                     what a line did is in the file before the line is answered
append SECTION HEX   adds a record at the end of a section
sync SECTION, sync-all
                     makes a section durable, or every one
prune SECTION        raises the bound, and drops the sections below
read                 a line for each record: its section, its number there and its bytes
power STORES, power on
                     the power lasts for so many stores, or for ever
cut                  the power goes between two operations
damage PLACE BYTE, bytes FROM COUNT
                     sets a byte of a byte journal, shows some

A number is decimal and has at most 64 bits. Bytes are in hex, two digits each, and - stands for none. Empty lines and lines that begin with # are passed over.
A line that cannot be done is answered by `refused`, and changes nothing.
The last line printed is a summary.";

const REPLAY_HELP: &str = "Usage: replay FILE ..

Replays recorded sessions: reads the commands that each file has, one a line, and prints what each did, as
aggregation does (aggregation --help lists them). Each file's part begins with a line `recording` and the file's
name. A line `new` ends a session, with its summary, and begins another.";

/// Runs a console over standard input, or prints what it reads where the one argument is `--help`.
pub fn run(rt: &HostRuntime) -> anyhow::Result<()> {
    let mut words = env::args(rt)?.skip(1);
    let Some(first) = words.next() else {
        let mut out = BufWriter::new(rt.alloc(), rt.stdout())?;
        return play(rt, BufReader::new(rt.alloc(), rt.stdin())?, &mut out, false);
    };
    let unknown = if first.as_str() == "--help" {
        words.next()
    } else {
        Some(first)
    };
    if let Some(word) = unknown {
        bail!("unknown argument {word}, the only one is --help, alone");
    }
    println!(rt; "{HELP}")?;
    Ok(())
}

/// Replays the recorded sessions in the files that the arguments name, one after the other; says what it reads where
/// there are none, or one is `--help`.
pub fn replay(rt: &HostRuntime) -> anyhow::Result<()> {
    let mut files = env::args(rt)?.skip(1).peekable();
    if files.peek().is_none_or(|word| word.as_str() == "--help") {
        println!(rt; "{REPLAY_HELP}")?;
        return Ok(());
    }
    let mut out = BufWriter::new(rt.alloc(), rt.stdout())?;
    for name in files {
        let file = fs::open(rt, name.as_str()).context(format_args!("opening {name}"))?;
        writeln!(out, "recording {name}")?;
        play(rt, BufReader::new(rt.alloc(), file)?, &mut out, true).context(format_args!(
            "replaying {name}"
        ))?;
    }
    Ok(())
}
