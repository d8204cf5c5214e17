//! The lines of a reader, answered one after the other.
ghost use Rattle.std.specs.Prelude.{IfSome, OnOk};
ghost use Rattle.session.specs.Playing.{Turns, Closes, PlaysAll};

use crate::Session;
use std::io::{BufRead, Write};

/// Ends a session: prints what it has seen.
fn end<W: Write>(session: &Session, out: &mut W) -> anyhow::Result<()>
    ensures { OnOk result (Closes session.now (W.contents out.old) (W.contents out.new)) }
{
    let summary = session.summary();
    writeln!(out, "{summary}")?;
    out.flush()?;
    Ok(())
}

/// Answers a line. Where they are parted, a line `new` ends the session and begins another.
fn turn<W: Write>(
    rt: &HostRuntime,
    session: &mut Session,
    line: &[u8],
    out: &mut W,
    parted: bool,
) -> anyhow::Result<()>
    ensures { OnOk result (Turns parted line.now session.old (W.contents out.old) session.new (W.contents out.new)) }
{
    if parted && line == b"new".as_slice() {
        end(session, out)?;
        *session = Session::new(rt.alloc());
        return Ok(());
    }
    session.answer(rt, line, out)
}

/// Answers the lines of a reader to their end, and prints a summary.
pub fn play<R: BufRead + Drop, W: Write>(
    rt: &HostRuntime,
    input: R,
    out: &mut W,
    parted: bool,
) -> anyhow::Result<()>
    ensures { OnOk result (IfSome (R.remaining input) (λ bytes. PlaysAll parted bytes (W.contents out.old) (W.contents out.new))) }
{
    let mut session = Session::new(rt.alloc());
    for line in input.split(rt.alloc(), b'\n') {
        let line = line?;
        turn(rt, &mut session, &line, out, parted)?;
    }
    end(&session, out)
}
