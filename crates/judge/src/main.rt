// The judge as a program: a trace comes in, and what is to be said of it goes out.
#![tactic(auto)]

use anyhow::bail;
use basics::Refusal;
use judging::Judge;
use std::fs::File;
use std::io::Read;
use std::process::ExitCode;
use std::{env, io};
use trace::Verdict;

const BUFFER: usize = 65536;

// Why there is no verdict.
#[derive(Drop)]
enum Stopped {
    // the trace was refused
    Refused(Refusal),
    // the trace could not be read
    Failed(anyhow::Error),
}

impl From<Refusal> for Stopped {
    fn from(why: Refusal) -> Stopped {
        Stopped::Refused(why)
    }
}

impl From<anyhow::Error> for Stopped {
    fn from(error: anyhow::Error) -> Stopped {
        Stopped::Failed(error)
    }
}

impl From<io::Error> for Stopped {
    fn from(error: io::Error) -> Stopped {
        Stopped::Failed(error.into())
    }
}

// Reads the whole trace, piece by piece, or up to what is refused.
fn read_all<F: FnMut(&[u8]) -> Result<(), Refusal>>(
    input: &mut impl Read,
    buffer: &mut [u8],
    mut feed: F,
) -> Result<(), Stopped>
    requires { F.IsAlwaysCallable feed }
{
    // counted, since a loop that waits on input needs a bound
    for _ in 0..u64::MAX {
        match input.read(buffer)? {
            0 => break,
            n => feed(&buffer[..n])?,
        }
    }
    Ok(())
}

// The file that is named, if one is.
fn named_file(rt: &HostRuntime) -> anyhow::Result<Option<File>> {
    let mut arguments = env::args(rt)?.skip(1);
    match (arguments.next(), arguments.next()) {
        (None, _) => Ok(None),
        (Some(path), None) => Ok(Some(File::open(rt, path.as_str())?)),
        (Some(_), Some(_)) => bail!("judge takes one file, or none"),
    }
}

// The verdict on the raw bytes of the file that is named, or else on the text of standard input.
fn judged(rt: &HostRuntime, buffer: &mut [u8], judge: &mut Judge) -> Result<Verdict, Stopped> {
    match named_file(rt)? {
        Some(mut file) => read_all(&mut file, buffer, |piece| judge.bytes(piece))?,
        None => read_all(&mut rt.stdin(), buffer, |piece| judge.text(piece))?,
    }
    Ok(judge.verdict()?)
}

// Says on standard error which event was refused.
fn complain(rt: &HostRuntime, event: u64, why: Refusal) -> io::Result<()> {
    match why {
        Refusal::CounterFull => eprintln!(rt; "judge: event {event} is one too many"),
        _ => eprintln!(rt; "judge: event {event} is malformed"),
    }
}

// Prints the verdict, or why the trace was refused, and the status tells which. A trace that could not be read is an error.
fn main(rt: HostRuntime) -> anyhow::Result<ExitCode> {
    let mut judge = Judge::new(rt.alloc())?;
    let mut buffer = vec![in rt.alloc(); 0u8; BUFFER]?;
    match judged(&rt, &mut buffer, &mut judge) {
        Ok(verdict) => {
            print!(rt; "{verdict}")?;
            Ok(ExitCode::SUCCESS)
        }
        Err(Stopped::Refused(why)) => {
            println!(rt; "{why}")?;
            complain(&rt, u64::from(judge.events()) + 1, why)?;
            Ok(ExitCode::FAILURE)
        }
        Err(Stopped::Failed(error)) => Err(error),
    }
}
