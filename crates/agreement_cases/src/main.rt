// A test program: task and re-encoding compared along lists, over the cases of standard input (the file stdin; stdout is what is answered).
#![tactic(auto)]

use std::io;

fn main(rt: HostRuntime) -> io::Result<()> {
    cases::run(&rt)
}
