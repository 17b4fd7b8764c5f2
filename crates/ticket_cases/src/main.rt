// A test program: asks and commits, over the cases of standard input (the file stdin; stdout is what they must answer).
#![tactic(auto)]

use std::io;

fn main(rt: HostRuntime) -> io::Result<()> {
    cases::run(&rt)
}
