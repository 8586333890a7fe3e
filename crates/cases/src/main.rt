// The cases that tests/cases.py has, with what each must print worked out by hand.
#![tactic(auto)]

use std::io;

fn main(rt: HostRuntime) -> io::Result<()> {
    let mut image = [0u8; runner::ROOM];
    let mut sheet = [0u8; runner::ROOM];
    runner::run_cases(&rt, &mut image, &mut sheet)
}
