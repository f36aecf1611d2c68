//! The program `lsr`: an operator's words, read from the command line and run over the standard streams, the files that
//! they name, and sockets of this machine.
#![tactic(auto)]

use lsr_tool::{end, run, tell_unread_words};
use std::process::ExitCode;
use std::{env, io};

/// The words of the command line. The errors are that one isn't UTF-8, or that memory ran out.
fn read_args(rt: &HostRuntime) -> io::Result<Vec<String>> {
    Ok(env::args(rt)?.collect::<Vec<String>>(rt.alloc())?)
}

fn main(rt: HostRuntime) -> ExitCode {
    let status = match read_args(&rt) {
        Ok(words) => {
            let ran = run(
                &rt,
                rt.alloc(),
                words.as_slice(),
                &mut rt.stdin(),
                &mut rt.stdout(),
                &mut rt.stderr(),
            );
            end(ran, &mut rt.stderr())
        }
        Err(fault) => tell_unread_words(&fault, &mut rt.stderr()),
    };
    ExitCode::from(status)
}
