// Stored listings, by the names of their files as arguments: each name, and what packcheck writes for that input.
#![tactic(auto)]

use listing::run::run;
use std::fs::File;
use std::io::writer;
use std::{env, io};

fn main(rt: HostRuntime) -> io::Result<()> {
    for name in env::args(&rt)?.skip(1) {
        check_file(&rt, name.as_str())?;
    }
    Ok(())
}

fn check_file(rt: &HostRuntime, name: &str) -> io::Result<()> {
    println!(rt; "{name}")?;
    let mut file = File::open(rt, name)?;
    run(&mut file, &mut writer(rt))
}
