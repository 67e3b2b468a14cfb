//! Computes integer operators: for each line with an operator's code and its operands, in hexadecimal
//! and with one space between, prints the result in hexadecimal, or `trap`. `bench/numeric.py` holds
//! it against cases that an engine computed.
#![tactic(auto)]

mod case;

use case::{Outcome, outcome_of};
use std::io;

fn main(rt: HostRuntime) -> io::Result<()> {
    for line in rt.lines(rt.alloc()) {
        match outcome_of(line?.as_str()) {
            Some(Outcome::Result(number)) => println!(rt; "{number:x}")?,
            Some(Outcome::Trap) => println!(rt; "trap")?,
            None => println!(rt; "no operator on such operands")?,
        }
    }
    Ok(())
}
