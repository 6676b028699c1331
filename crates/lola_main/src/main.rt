//! The program: its words, the system's files and output, and three seats of a bus go to
//! `lola_app::serve`, and the process ends with the number of the status.
#![tactic(auto)]

use lola_app::{Status, serve, status_number};
use lola_port::{RealSink, RealStore, Seat};
use std::alloc::{AllocError, Global};
use std::io::ErrorKind;
use std::process::ExitCode;
use std::{env, io};

fn main(rt: HostRuntime) -> ExitCode {
    let alloc = rt.alloc();
    let status = match (words(&rt), seats(alloc)) {
        (Ok(words), Ok(mut seats)) => {
            let mut files = RealStore::new(alloc, &rt);
            let mut out = RealSink::new(io::writer(&rt));
            serve(alloc, words.as_slice(), &mut files, &mut out, &mut seats)
        }
        _ => Status::Memory,
    };
    ExitCode::from(status_number(status))
}

/// The words behind the program's name. No command has a word that isn't UTF-8, so where one isn't
/// there are none, which are no command either.
fn words(rt: &HostRuntime) -> io::Result<Vec<String>> {
    match env::args(rt) {
        Ok(words) => Ok(words.skip(1).collect::<Vec<String>>(rt.alloc())?),
        Err(error) if error.kind() == ErrorKind::InvalidData => Ok(Vec::new(rt.alloc())),
        Err(error) => Err(error),
    }
}

/// The seats of the bus by byte address: the memory, its upper end for the first instructions, and a
/// log between them. No command runs on them yet, so no device sits there.
fn seats(alloc: Global) -> Result<Vec<Seat>, AllocError> {
    let mut seats = Vec::new(alloc);
    seats.push(empty_seat(0, 0x10_0000))?;
    seats.push(empty_seat(0xFF_E000, 0x100_0000))?;
    seats.push(empty_seat(0x10_0000, 0x10_0100))?;
    Ok(seats)
}

fn empty_seat(from: u32, to: u32) -> Seat {
    Seat {
        from,
        to,
        device: None,
    }
}
