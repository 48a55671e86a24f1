//! The program `dashboards`: its words, files and standard output are real, its back end is in memory.
#![tactic(auto)]

use dq_backend::InOffice;
use dq_base::{List, Text, Texts};
use dq_outside::{DiskFolder, OutSink};
use dq_top::{Checked, Fault, Outcome, check, rehearse, tell};
use std::env;
use std::io::ErrorKind;
use std::process::ExitCode;
use std::rt::Env;

/// The words after the program's name. Words that aren't text are a faulty command line.
fn words_of<R: Env + AllocGlobal>(rt: &R) -> Result<Texts, Fault> {
    let args = match env::args(rt) {
        Ok(args) => args,
        Err(e) if e.kind() == ErrorKind::OutOfMemory => return Err(Fault::Memory),
        Err(_) => return Err(Fault::Usage),
    };
    let mut words = List::new(rt.alloc());
    for arg in args.skip(1) {
        let Ok(word) = Text::copy_of(rt.alloc(), arg.as_bytes()) else {
            return Err(Fault::Memory);
        };
        if words.push(word).is_err() {
            return Err(Fault::Memory);
        }
    }
    Ok(words)
}

/// Writes the line that tells a fault to standard error. Where memory is wanting nothing is written.
fn tell_line(rt: &HostRuntime, fault: &Fault) {
    if let Ok(mut line) = tell(rt.alloc(), fault) {
        if line.push(b'\n').is_ok() {
            let _ = rt.stderr().write_all(line.bytes());
        }
    }
}

/// Whether the first word asks for a report to be judged.
fn asks_check(words: &Texts) -> bool {
    match words.get(0) {
        Some(word) => word.bytes() == b"check".as_slice(),
        None => false,
    }
}

/// Does what the words ask for. Answers the status, and the fault that is to be told.
fn serve(rt: &HostRuntime, words: &Texts) -> (u8, Option<Fault>) {
    let mut folder = DiskFolder::new(rt);
    let mut sink = OutSink::new(rt);
    if asks_check(words) {
        let Checked { status, told, .. } = check(rt.alloc(), words, &mut folder, &mut sink);
        return (status, told);
    }
    let mut office = InOffice::new();
    let Outcome { status, told, .. } = rehearse(
        rt.alloc(),
        words,
        &mut folder,
        &mut sink,
        &mut office,
    );
    (status, told)
}

fn main(rt: HostRuntime) -> ExitCode {
    let words = match words_of(&rt) {
        Ok(words) => words,
        Err(fault) => {
            tell_line(&rt, &fault);
            return ExitCode::from(fault.status());
        }
    };
    let (status, told) = serve(&rt, &words);
    if let Some(fault) = &told {
        tell_line(&rt, fault);
    }
    ExitCode::from(status)
}
