// The program packcheck: a listing on standard input, diagnostics and verdict on standard output.
#![tactic(auto)]

use listing::run::run;
use std::io::writer;

fn main(rt: HostRuntime) {
    // An output that cannot be written is not reported.
    let _ = run(&mut rt.reader(), &mut writer(&rt));
}
