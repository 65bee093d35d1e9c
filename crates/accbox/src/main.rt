// Reads a script of commands on frames, runs it and writes an answer for each command.
#![tactic(auto)]

mod hex;
mod marks;
mod misread;
mod parse;
mod read;
mod script;
mod source;
mod words;

use std::fmt::Display;
use std::process::ExitCode;

// Says why the program failed, which ends with status 1.
fn tell<D: Display + Drop>(rt: &HostRuntime, reason: D) -> ExitCode {
    // Nothing more can be said where standard error is closed.
    let _ = rt.eprintln(reason);
    ExitCode::FAILURE
}

fn main(rt: HostRuntime) -> ExitCode {
    // What stops the script borrows from the text, so no one result can carry both reasons out.
    let text = match source::text(&rt) {
        Ok(text) => text,
        Err(reason) => return tell(&rt, reason),
    };
    match script::run(&rt, text.as_str()) {
        Ok(()) => ExitCode::SUCCESS,
        Err(reason) => tell(&rt, reason),
    }
}
