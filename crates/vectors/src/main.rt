// Cases that the reference made, with the answers that it gave: `cargo run --release --bin gate -- 400 1
// ../crates/vectors` in reference/ writes them.
#![tactic(auto)]

use std::io;

fn main(rt: HostRuntime) -> io::Result<()> {
    let mut image = [0u8; runner::ROOM];
    let mut sheet = [0u8; runner::ROOM];
    runner::run_cases(&rt, &mut image, &mut sheet)
}
