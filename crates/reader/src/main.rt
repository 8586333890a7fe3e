// Files read into more room than the other programs ask for, aloud and quietly: how many bytes came, and a
// sum of them. It is for the gate alone.
#![tactic(auto)]

use console::file::{read_named, read_named_quietly};
use std::io;

// More room than there is memory.
const ANY: usize = usize::MAX;

const USAGE: &str = "usage: reader SHORT LONG\n";

// Tells how many bytes there are, and a sum that goes by their order.
fn tell(rt: &impl Print, bytes: &[u8]) -> io::Result<()> {
    let mut sum: u32 = 7;
    for byte in bytes {
        sum = sum.wrapping_mul(31).wrapping_add(*byte as u32);
    }
    println!(rt; "{} {sum}", bytes.len())
}

fn main(rt: HostRuntime) -> io::Result<()> {
    for i in 1..=2 {
        if let Some(bytes) = read_named(&rt, i, ANY, USAGE)? {
            tell(&rt, &bytes)?;
        }
        tell(&rt, &read_named_quietly(&rt, i, ANY))?;
    }
    Ok(())
}
