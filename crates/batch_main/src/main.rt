//! The program: serves its words by `batch_commands` over the job, the tables and the estate of the folder
//! that it runs in.
#![tactic(auto)]

use batch_commands::{Answer, Outcome, serve};
use estate::NoGate;
use estate_files::{FileEstate, FileInputs, RealClock, StdPrinter};
use row_core::NoMemory;
use std::process::ExitCode;
use std::{env, io};

fn main(rt: HostRuntime) -> ExitCode {
    let outcome = match arguments(&rt) {
        Ok(words) => serve_files(&rt, words.as_slice()),
        Err(_) => Outcome::new(Answer::NoMemory),
    };
    ExitCode::from(outcome.status)
}

// Serves the words over the files of the present folder.
fn serve_files(rt: &HostRuntime, words: &[String]) -> Outcome {
    let (Ok(mut estate), Ok(mut inputs)) = (open_estate(rt), open_inputs(rt)) else {
        return Outcome::new(Answer::NoMemory);
    };
    let mut printer = StdPrinter::new(rt);
    let mut clock = RealClock::new(rt);
    serve(
        rt.alloc(),
        words,
        &mut estate,
        &mut inputs,
        &mut printer,
        &mut clock,
        &NoGate,
    )
}

fn open_estate(rt: &HostRuntime) -> Result<FileEstate<'_, HostRuntime>, NoMemory> {
    FileEstate::new(rt, rt.process(), rt.alloc(), ".")
}

fn open_inputs(rt: &HostRuntime) -> Result<FileInputs<'_, HostRuntime>, NoMemory> {
    FileInputs::new(rt, rt.alloc(), ".")
}

// The words after the program's name. Words that are no text are no command: one that none is stands for
// them.
fn arguments<R: std::rt::Env + AllocGlobal>(rt: &R) -> io::Result<Vec<String>> {
    match env::args(rt) {
        Ok(words) => Ok(words.skip(1).collect(rt.alloc())?),
        Err(error) if error.kind() == io::ErrorKind::InvalidData => Ok(vec![in rt.alloc();
            String::from_str(rt.alloc(), "?")?,
        ]?),
        Err(error) => Err(error),
    }
}
