// Runs the sheet on standard input, its first 64 KiB, and prints its history, or a refusal's number
// and line. What is printed is print_run's to say; this function only reads and writes. A read or
// a write that fails ends it with the error.
#![tactic(auto)]

mod decimals;
mod printing;
mod reading;

use crate::printing::{LENT, print_run};
use crate::reading::read_full;
use std::io;

fn main(rt: HostRuntime) -> io::Result<()> {
    // fixed memory: no heap
    let mut sheet = [0; LENT];
    let n = read_full(&mut rt.reader(), &mut sheet)?;
    let mut area = [0; LENT];
    let k = print_run(&sheet[..n], &mut area);
    rt.write_all(&area[..k])
}
