//! The process round the top call: its arguments, its standard streams, and its exit status.

ghost use Rattle.std.specs.Prelude.{◌≡◌, ◌⊎◌, IfErr};
ghost use Rattle.std.specs.Process.{exit_status};
ghost use Rattle.server_shell.specs.Status.{code_of};
ghost use Rattle.server_shell.specs.declared.status.Status.TheVariants as end;

use core_types::NoMemory;
use disk_model::RealDir;
use io_edges::{RealClock, RealSink, RealSource};
use server_shell::{Status, modhost, status_code};
use std::fs::File;
use std::hash::RandomState;
use std::process::ExitCode;
use std::{env, io};

const HELP: &str = "\
modhost: a keyspace server in the manner of Redis

    modhost pipe DIR    serve the requests of standard input (RESP2) over the append-only log in the
                        folder DIR, which is begun where there is none; replies go to standard
                        output
    modhost check DIR   say how many keys the folder DIR stands for, and how much of its log is
                        whole, and change nothing
    modhost --help, -h  print this
    modhost --version   print the version
";

const VERSION: &str = "modhost 0.1.0\n";

/// Does what the process was asked to do.
///
/// Where a standard stream is closed, the next file to be opened would get its number, and replies
/// could end up in the log. So three handles are held first: reading or writing one of them fails.
pub fn run(rt: &HostRuntime) -> Status {
    match (held(rt), held(rt), held(rt)) {
        (Ok(_first), Ok(_second), Ok(_third)) => run_held(rt),
        _ => Status::DirFault,
    }
}

// A handle that can be neither read nor written.
fn held(rt: &HostRuntime) -> io::Result<File> {
    File::open(rt, "/")
}

fn run_held(rt: &HostRuntime) -> Status {
    match arguments(rt) {
        Ok(arguments) => run_arguments(rt, &arguments),
        Err(status) => status,
    }
}

/// Says on standard error how the run ended, where it isn't done, and gives the exit status.
pub fn report(rt: &HostRuntime, status: &Status) -> ExitCode
    ensures code { exit_status result ≡ code_of status.now }
{
    if *status != Status::Done {
        // Where standard error is closed, the exit status still tells.
        let _ = eprintln!(rt; "modhost: {status}");
    }
    ExitCode::from(status_code(status))
}

// The words after the program's name. Words that are no text are a faulty command line.
fn arguments(rt: &HostRuntime) -> Result<Vec<String>, Status>
    ensures stop { IfErr result (λ why. (why ≡ end.Memory) ⊎ (why ≡ end.Usage 0)) }
{
    match env::args(rt) {
        Ok(arguments) => Ok(arguments.skip(1).collect(rt.alloc())?),
        Err(error) if error.kind() == io::ErrorKind::OutOfMemory => Err(Status::Memory),
        Err(_) => Err(Status::Usage(0)),
    }
}

fn run_arguments(rt: &HostRuntime, arguments: &[String]) -> Status {
    match arguments
        .iter()
        .map(|word| word.as_str())
        .collect::<Vec<&str>>(rt.alloc())
    {
        Ok(words) => run_words(rt, &words),
        Err(_) => Status::Memory,
    }
}

fn run_words(rt: &HostRuntime, words: &[&str]) -> Status {
    match words {
        ["--help" | "-h", ..] => print_text(rt, HELP),
        ["--version", ..] => print_text(rt, VERSION),
        _ => match hashing(rt) {
            Ok(hashing) => serve(rt, hashing, words),
            Err(status) => status,
        },
    }
}

// The secret numbers that the hashing of names begins with. Where the system gives none, the run
// ends as where it gives no file descriptor.
fn hashing(rt: &HostRuntime) -> Result<RandomState, Status>
    ensures stop { IfErr result (λ why. (why ≡ end.Memory) ⊎ (why ≡ end.DirFault)) }
{
    match RandomState::new(rt) {
        Ok(hashing) => Ok(hashing),
        Err(error) if error.kind() == io::ErrorKind::OutOfMemory => Err(Status::Memory),
        Err(_) => Err(Status::DirFault),
    }
}

// Makes the real directory, streams and clock, and does what the words ask for with them.
fn serve(rt: &HostRuntime, hashing: RandomState, words: &[&str]) -> Status {
    let folder = words.get(1).copied().unwrap_or(".");
    match RealDir::new(*rt, rt.alloc(), folder) {
        Ok(dir) => {
            let mut source = RealSource::new(rt.stdin());
            let mut sink = RealSink::new(rt.stdout());
            let mut clock = RealClock::new(*rt);
            modhost(
                rt.alloc(),
                hashing,
                words,
                dir,
                &mut source,
                &mut sink,
                &mut clock,
            )
            .status
        }
        Err(NoMemory) => Status::Memory,
    }
}

fn print_text(rt: &HostRuntime, text: &str) -> Status {
    match print!(rt; "{text}") {
        Ok(()) => Status::Done,
        Err(_) => Status::WriteFault,
    }
}
