//! The program of a ResourceSync source (ANSI/NISO Z39.99-2017).
//!
//! `rs_source mem SIZE BASE LIMIT` runs the script on standard input on a new source, whose disk of SIZE bytes is in
//! memory. `rs_source format FILE SIZE BASE LIMIT` makes a source on a new file. `rs_source run FILE` runs the script
//! on standard input on the source of a file. `rs_source serve FILE PORT COUNT` serves COUNT connections to it on the
//! loopback interface. `rs_source copy OLD NEW SIZE` copies the source of a file to a new file of SIZE bytes.
#![tactic(auto)]

mod command;
mod file;
mod listener;
mod program;
mod serving;

use command::{Invocation, ServingArguments, SourceArguments, asked};
use file::{copy_to_file, format_file, open_file};
use program::{ProgramError, start, unread};
use rs_disk::Disk;
use rs_file::Unknown;
use rs_io::Watched;
use rs_script::script;
use rs_store::Source;
use serving::serve_connections;
use std::fs::File;
use std::io::BufWriter;
use std::net::{Ipv4Addr, Net, TcpListener, TcpStream};
use std::process::ExitCode;
use std::rt::{Clock, Env, Files};
use std::{env, io};

/// Runs the script on standard input on a source.
fn run_script<R: Input + Print + AllocGlobal, D: Disk>(
    rt: &R,
    source: &mut Source<D>,
) -> Result<(), ProgramError> {
    let output = BufWriter::new(rt.alloc(), io::writer(rt)).map_err(|_| ProgramError::NoMemory)?;
    let mut reader = Watched::new(rt.reader());
    let mut writer = Watched::new(output);
    script(rt.alloc(), source, &mut reader, &mut writer)?;
    Ok(())
}

/// `mem`: runs the script on standard input on a new source in memory.
fn run_mem<R: Input + Print + AllocGlobal>(
    rt: &R,
    made: &SourceArguments<'_>,
) -> Result<(), ProgramError> {
    let mut source = start(rt.alloc(), made.size, made.base, made.limit)?;
    run_script(rt, &mut source)
}

/// `format`: makes a new source on a new file.
fn run_format<R: Files<File = File> + Print + AllocGlobal>(
    rt: &R,
    file: &str,
    made: &SourceArguments<'_>,
) -> Result<(), ProgramError> {
    format_file(rt, rt.alloc(), file, made, Unknown)?;
    println!(rt; "formatted {}", made.size).map_err(|_| ProgramError::Write)
}

/// `run`: runs the script on standard input on the source of a file.
fn run_file<R: Files<File = File> + Input + Print + AllocGlobal>(
    rt: &R,
    file: &str,
) -> Result<(), ProgramError> {
    let mut source = open_file(rt, rt.alloc(), file, Unknown)?;
    run_script(rt, &mut source)
}

/// Opens a socket, prints its address, and serves connections to a source on it.
fn serve<R: Net<Listener = TcpListener, Stream = TcpStream> + Clock + Print + AllocGlobal, D: Disk>(
    rt: &R,
    source: &mut Source<D>,
    serving: ServingArguments,
) -> Result<(), ProgramError> {
    let listener = TcpListener::bind(rt, (Ipv4Addr::LOCALHOST, serving.port)).map_err(
        |_| ProgramError::Device,
    )?;
    let address = listener.local_addr().map_err(|_| ProgramError::Device)?;
    println!(rt; "listening {address}").map_err(|_| ProgramError::Write)?;
    serve_connections(rt.alloc(), source, &listener, serving.count, rt);
    Ok(())
}

/// `serve`: serves connections to the source of a file.
fn run_serve<
    R: Files<File = File>
        + Net<Listener = TcpListener, Stream = TcpStream>
        + Clock
        + Print
        + AllocGlobal,
>(rt: &R, file: &str, serving: ServingArguments) -> Result<(), ProgramError> {
    let mut source = open_file(rt, rt.alloc(), file, Unknown)?;
    serve(rt, &mut source, serving)
}

/// `copy`: copies the source of a file to a new file.
fn run_copy<R: Files<File = File> + Print + AllocGlobal>(
    rt: &R,
    old: &str,
    new: &str,
    size: u64,
) -> Result<(), ProgramError> {
    let mut source = open_file(rt, rt.alloc(), old, Unknown)?;
    copy_to_file(rt, &mut source, new, size, Unknown)?;
    println!(rt; "copied {size}").map_err(|_| ProgramError::Write)
}

/// Performs the task that the arguments of the program request.
fn run<
    R: Files<File = File>
        + Net<Listener = TcpListener, Stream = TcpStream>
        + Clock
        + Env
        + Input
        + Print
        + AllocGlobal,
>(rt: &R) -> Result<(), ProgramError> {
    let arguments = env::args(rt).map_err(|error| unread(error.kind()))?;
    let words = arguments
        .collect::<Vec<String>>(rt.alloc())
        .map_err(|_| ProgramError::NoMemory)?;
    match asked(words.as_slice()) {
        Some(Invocation::Mem(made)) => run_mem(rt, &made),
        Some(Invocation::Format(file, made)) => run_format(rt, file, &made),
        Some(Invocation::Run(file)) => run_file(rt, file),
        Some(Invocation::Serve(file, serving)) => run_serve(rt, file, serving),
        Some(Invocation::Copy(old, new, size)) => run_copy(rt, old, new, size),
        None => Err(ProgramError::Usage),
    }
}

fn main(rt: HostRuntime) -> ExitCode {
    match run(&rt) {
        Ok(()) => ExitCode::SUCCESS,
        Err(error) => {
            let _ = eprintln!(rt; "{error}");
            ExitCode::from(error.status())
        }
    }
}
