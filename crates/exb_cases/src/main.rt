//! Whole runs, each with its files. `data/cases.txt` has a line a case: its name, which is its
//! folder's, the status that is wanted, the words that the program is given (`""` is an empty one),
//! a colon, and the files that it writes into the folder. Where the status is 0, each of these must
//! be as the one of its name in the folder `expected` of the case, or absent where `!` stands
//! before its name; otherwise none of them may be there. What the run prints stands in front of the
//! line that tells how the case ended.
#![tactic(auto)]

use exb_run::run_armed;
use exb_shelf::{FileShelf, OpenFault, OutSink, Shelf, read_file};
use std::alloc::{AllocError, Global};
use std::{fs, io};

/// The most bytes of a file that is compared.
const LARGEST: usize = 16_777_216;

/// The words of a text, at most those of a line. Two quotation marks stand for an empty word.
fn words_in(alloc: Global, text: &str) -> io::Result<Vec<String>> {
    let mut words = Vec::new(alloc);
    for word in text.split_whitespace() {
        let word = if word == "\"\"" { "" } else { word };
        words.push(String::from_str(alloc, word)?)?;
    }
    Ok(words)
}

/// Whether a file that was written holds what is expected.
fn is_expected(alloc: Global, shelf: &mut FileShelf, folder: &str, name: &str) -> io::Result<bool> {
    let written = format!(in alloc; "{folder}/{name}")?;
    let expected = format!(in alloc; "{folder}/expected/{name}")?;
    let Ok(written) = read_file(alloc, shelf, written.as_str(), LARGEST) else {
        return Ok(false);
    };
    let Ok(expected) = read_file(alloc, shelf, expected.as_str(), LARGEST) else {
        return Ok(false);
    };
    Ok(written.as_slice() == expected.as_slice())
}

/// Whether a file isn't there.
fn is_absent(alloc: Global, shelf: &mut FileShelf, folder: &str, name: &str) -> io::Result<bool> {
    let name = format!(in alloc; "{folder}/{name}")?;
    let opened = shelf.open(name.as_str());
    Ok(matches!(opened, Err(OpenFault::Missing)))
}

/// Whether a file is as it must be after a run that was played to its end.
fn is_right(alloc: Global, shelf: &mut FileShelf, folder: &str, name: &str) -> io::Result<bool> {
    match name.strip_prefix("!") {
        Some(name) => is_absent(alloc, shelf, folder, name),
        None => is_expected(alloc, shelf, folder, name),
    }
}

/// Prints how a case ended: the first file that isn't as it must be, or that all are.
fn judge(rt: HostRuntime, folder: &str, status: u8, files: &[String]) -> io::Result<()> {
    let alloc = rt.alloc();
    let mut shelf = FileShelf::new(alloc, rt);
    for file in files {
        let name = file.as_str();
        let holds = match status {
            0 => is_right(alloc, &mut shelf, folder, name)?,
            _ => is_absent(alloc, &mut shelf, folder, name)?,
        };
        if !holds {
            println!(rt; "{folder}: {status}, and {name} is not as expected")?;
            return Ok(());
        }
    }
    let count = files.len();
    match status {
        0 => println!(rt; "{folder}: 0, {count} files as expected")?,
        _ => println!(rt; "{folder}: {status}, none of {count} files is there")?,
    }
    Ok(())
}

/// Plays a case: its name, the status that is wanted, and the words for the program.
fn play(rt: HostRuntime, name: &str, wanted: &str, told: &str, files: &str) -> io::Result<()> {
    let alloc = rt.alloc();
    let words = words_in(alloc, told)?;
    let files = words_in(alloc, files)?;
    let mut shelf = FileShelf::new(alloc, rt);
    let mut out = OutSink::new(rt);
    let Ok(status) = run_armed(alloc, &words, &mut shelf, &mut out) else {
        return Err(io::Error::from(AllocError));
    };
    if wanted.parse::<u8>() != Ok(status) {
        println!(rt; "{name}: {status} in place of {wanted}")?;
        return Ok(());
    }
    judge(rt, name, status, &files)
}

/// Plays the case of a line.
fn play_line(rt: HostRuntime, line: &str) -> io::Result<()> {
    let Some((told, files)) = line.split_once(':') else {
        return Ok(());
    };
    let Some((name, told)) = told.split_once(' ') else {
        return Ok(());
    };
    let Some((wanted, told)) = told.split_once(' ') else {
        return Ok(());
    };
    play(rt, name, wanted, told, files)
}

fn main(rt: HostRuntime) -> io::Result<()> {
    let list = fs::read_to_string(&rt, "cases.txt")?;
    for line in list.as_str().lines() {
        play_line(rt, line)?;
    }
    Ok(())
}
