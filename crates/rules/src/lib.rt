//! The rules of the engine as definitions, and the law over its runs: each function here ensures a theorem.
#![tactic(auto)]

ghost use Rattle.rules.specs.Durable.{ToldDurable};
ghost use Rattle.rules.specs.Limits.{RecordsFit};
ghost use Rattle.rules.specs.Output.{OutputFits};
ghost use Rattle.rules.specs.Promises.{Promises};
ghost use Rattle.rules.specs.Room.{AcksFit};
ghost use Rattle.rules.specs.Window.{WindowCases};

/// After every run of an engine on an empty journal, whatever the calls, halts and power cuts: all certificates told for a height
/// are one and are backed, all own acks of an epoch and height bear one digest, and slips balance.
pub fn promises_stand()
    ensures { Promises }
{}

/// Tip 10, W 4, A 2: an ack of height 7 gets 17, one of 14 gets 18; 8 and 13 go on.
pub fn window_stands()
    ensures { WindowCases }
{}

/// No rule ever needs a 513th stored ack.
pub fn room_stands()
    ensures { AcksFit }
{}

/// Heights and tips stay within what records can hold, and every record of the journal is read back as it was written.
pub fn records_stand()
    ensures { RecordsFit }
{}

/// What a call other than an opening writes fits into 2,048 bytes.
pub fn output_stands()
    ensures { OutputFits }
{}

/// Whatever a call tells, a certificate above all, is durable in the journal when it is told.
pub fn durable_stands()
    ensures { ToldDurable }
{}
