// Decodes a capture: a line of hexadecimal digits for each telegram in, a readable line out.
#![tactic(auto)]

mod decoded;
mod line;

use decoded::decode;
use line::bytes_of;
use std::io::{BufRead, BufReader};

// Prints what a line of the capture holds: a telegram, ! and the refusal's number, or ? for a line that is no telegram's digits.
fn show(rt: &HostRuntime, line: &[u8]) -> anyhow::Result<()> {
    let Some(bytes) = bytes_of(rt.alloc(), line)? else {
        println!(rt; "?")?;
        return Ok(());
    };
    match decode(bytes.as_slice()) {
        Ok(telegram) => println!(rt; "{telegram}")?,
        Err(refusal) => println!(rt; "!{}", u8::from(refusal))?,
    }
    Ok(())
}

fn run(rt: &HostRuntime) -> anyhow::Result<()> {
    for next in BufReader::new(rt.alloc(), rt.stdin())?.split(rt.alloc(), b'\n') {
        let line = next?;
        show(rt, line.as_slice())?;
    }
    Ok(())
}

fn main(rt: HostRuntime) -> anyhow::Result<()> {
    run(&rt)
}
