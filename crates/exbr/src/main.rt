//! `exbr`, the program: hands its words, the files of its folder and its standard output to
//! `exb_run`, which does all the work, so that nothing here needs a promise of its own.
#![tactic(auto)]

use exb_run::run_armed;
use exb_shelf::{FileShelf, OutSink, ShelfFault, print_text};
use std::alloc::{AllocError, Global};
use std::env;
use std::io::ErrorKind;
use std::process::ExitCode;

// The words without the program's name. Where they are no text there are none, so that usage is
// printed.
fn words(alloc: Global, rt: &HostRuntime) -> Result<Vec<String>, AllocError> {
    match env::args(rt) {
        Ok(words) => words.skip(1).collect(alloc),
        Err(fault) if fault.kind() == ErrorKind::OutOfMemory => Err(AllocError),
        Err(_) => Ok(Vec::new(alloc)),
    }
}

// Says that memory ran out before there was anything to run: 1, or 7 where that can't be printed.
fn out_of_memory(rt: HostRuntime) -> ExitCode {
    let mut out = OutSink::new(rt);
    match print_text(&mut out, b"exbr: out of memory\n") {
        Err(ShelfFault::Failed) => ExitCode::from(7),
        _ => ExitCode::from(1),
    }
}

fn main(rt: HostRuntime) -> ExitCode {
    let alloc = rt.alloc();
    let Ok(words) = words(alloc, &rt) else {
        return out_of_memory(rt);
    };
    let mut shelf = FileShelf::new(alloc, rt);
    let mut out = OutSink::new(rt);
    let Ok(status) = run_armed(alloc, &words, &mut shelf, &mut out) else {
        return out_of_memory(rt);
    };
    ExitCode::from(status)
}
