//! Worked cases of the rules, under the listed provider.
#![tactic(auto)]

ghost use Rattle.worked.specs.Again.{ToldAgain};
ghost use Rattle.worked.specs.Scene.{provider, settings};
ghost use Rattle.worked.specs.Cases.{WorkedCase};

/// Four signers, W 2, A 2: the own digest for height 0 writes 103 bytes, a second ack 0, a third 236, and the fourth gets 17.
pub fn worked_case_stands()
    ensures { WorkedCase }
{}

/// A run in which a certificate is told, a power cut falls into that very call, and the same certificate is told again.
pub fn told_again_stands()
    ensures { ToldAgain provider settings }
{}
