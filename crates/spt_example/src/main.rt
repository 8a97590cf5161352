//! Three examples of how a program calls the crates; `docs/CONTRIBUTING.md` quotes them. What it prints is the same in every run.
#![tactic(auto)]

mod paths;
mod roads;
mod shared_map;
mod trees;
mod while_running;

use anyhow::Result;

fn main(rt: HostRuntime) -> Result<()> {
    trees::show(&rt)?;
    while_running::show(&rt)?;
    shared_map::show(&rt)
}
