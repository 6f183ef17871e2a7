// The co-process (docs/PROTOCOL.md): answers each line of standard input by one line on standard output, in order, each before it waits for more input.
// A last line without a line feed is answered too. A read or a write that fails ends it, with a line on standard error.
// Promises: between two reads it holds what is left of the input's last line, and nothing else; what a line is answered is requests' promise. What is
// read and written nothing can promise.
// tests/vectors.py makes the lines of `stdin`, and by an implementation of 01 and 02 of its own the answers of `stdout`.
#![tactic(auto)]

ghost use Rattle.refdesk.specs.Turns.{Takes};

use lines::Line;
use std::fmt;
use std::io::Read;
use text::Text;

// What failed where the program ends before its input does.
#[derive(Clone, Copy)]
enum Failure {
    Reading,
    Writing,
}

impl fmt::Display for Failure {
    fn fmt<W: fmt::Write>(&self, f: &mut fmt::Formatter<W>) -> fmt::Result {
        f.write_str(match self {
            Failure::Reading => "refdesk: standard input can't be read",
            Failure::Writing => "refdesk: an answer can't be written",
        })
    }
}

fn main(rt: HostRuntime) {
    if let Err(failure) = session(&rt) {
        let _ = rt.eprintln(failure);
    }
}

// A proved loop has to end, and nothing says that the input does: the turns are as many as no run uses up.
fn session(rt: &HostRuntime) -> Result<(), Failure> {
    let mut room = [0u8; lines::ROOM];
    let mut line = Line {
        octets: &mut room,
        held: 0,
    };
    let mut stdin = rt.stdin();
    let mut octets = [0u8; 4096];
    for _ in 0..u64::MAX {
        let n = stdin.read(&mut octets).map_err(|_| Failure::Reading)?;
        if n == 0 {
            return last(rt, &line);
        }
        take_in(rt, &octets[..n], &mut line)?;
    }
    Ok(())
}

// What is left where the input ends is a line, if it has an octet.
fn last(rt: &impl Print, line: &Line<'_>) -> Result<(), Failure> {
    if line.held == 0 {
        return Ok(());
    }
    answered(rt, line)
}

// Answers each line that ends in the octets of a read.
fn take_in(rt: &impl Print, octets: &[u8], line: &mut Line<'_>) -> Result<(), Failure>
    ensures { Takes octets.now line.old.held line.old.octets.now result line.new.held line.new.octets.now }
{
    let mut at = 0;
    while let Some(next) = line.join(octets, at) {
        answered(rt, line)?;
        line.held = 0;
        at = next;
    }
    Ok(())
}

// Answers the line whose octets are held.
fn answered(rt: &impl Print, line: &Line<'_>) -> Result<(), Failure> {
    let mut reply = Text::new();
    requests::reply(leaves::front(line.octets, line.held), &mut reply);
    rt.write_all(reply.as_slice()).map_err(|_| Failure::Writing)
}
