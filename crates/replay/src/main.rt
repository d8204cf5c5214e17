//! The console over recorded sessions, whose answers others gave: the published code, and programs written from the rules.
#![tactic(auto)]

fn main(rt: HostRuntime) -> anyhow::Result<()> {
    session::replay(&rt)
}
