// Says again what each record says: the least that a program driven by lines needs, and the test of `driver::run` (docs/CALLS.md).
#![tactic(auto)]

use driver::{Program, Stdout};
use std::fmt;
use std::fmt::Write;

#[derive(Drop)]
struct Echo;

impl Program for Echo {
    fn record(&mut self, stdout: &mut Stdout, letter: u8, bytes: &mut [u8]) -> fmt::Result {
        stdout.bytes(&[letter]);
        driver::digits(stdout, bytes)?;
        stdout.write_str("\n")
    }
}

fn main() -> fmt::Result {
    driver::run(&mut Echo)
}
