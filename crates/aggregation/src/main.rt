//! The console over standard input.
#![tactic(auto)]

fn main(rt: HostRuntime) -> anyhow::Result<()> {
    session::run(&rt)
}
