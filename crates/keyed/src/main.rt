//! Keeps records of two keys and a value, as the lines on standard input say.
//!
//! Each line is answered by a line on standard output. The status is 0 at the end of the input, and 1
//! where reading or writing failed, which standard error then tells.
#![tactic(auto)]

use iddqd_lines::serve::serve;
use iddqd_lines::sink::WriteSink;
use iddqd_lines::source::ReadSource;
use std::io;
use std::process::ExitCode;

fn main(rt: HostRuntime) -> ExitCode {
    let mut input = ReadSource::new(rt.reader());
    let mut output = WriteSink::new(io::writer(&rt));
    let Err(fault) = serve(rt.alloc(), &mut input, &mut output) else {
        return ExitCode::SUCCESS;
    };
    // Where standard error fails too, nobody is left to be told.
    let _ = eprintln!(rt; "keyed: {fault}");
    ExitCode::FAILURE
}
