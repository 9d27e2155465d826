// A fixed load of inserts, replaces and removes over 1,024 keys; prints what came out, and no time.
#![tactic(auto)]

mod load;

use std::io;

fn main(rt: HostRuntime) -> io::Result<()> {
    let sum = load::run(1000);
    println!(rt; "1000 rounds, checksum {sum}")
}
