// The program: one template file from standard input, one line on standard output (crate line). A line is printed only for an input that was
// read to its end, or further than any sound file goes. Where a read fails or the line cannot be written, a sentence on standard error says so.
#![tactic(auto)]

ghost use Rattle.std.specs.Prelude.{◌≡◌, ◌≤◌, length, OnOk, IfOk};
ghost use Rattle.line.specs.Lines.{room};
ghost use Rattle.setcheck.specs.Inputs.{ReadFrom};
ghost use Rattle.setcheck.specs.Lines.{IsPrinted, IsAnswered};

use std::io::{ErrorKind, Read, Write};
use std::{fmt, io};

// Why no line was printed.
#[derive(Clone, Copy, Debug, PartialEq, Eq)]
enum Failure {
    Unread,
    Unwritten,
}

impl fmt::Display for Failure {
    fn fmt<W: fmt::Write>(&self, f: &mut fmt::Formatter<W>) -> fmt::Result {
        match self {
            Failure::Unread => write!(f, "standard input could not be read"),
            Failure::Unwritten => write!(f, "the line could not be written"),
        }
    }
}

// Reads to the end of the input, or until the buffer is full. Nothing says that interruptions end, and a proved loop has to: so its turns are
// counted, up to a number that no run uses up.
fn read_input<R: Read>(reader: &mut R, buffer: &mut [u8]) -> Result<usize, Failure>
    requires { room ≡ length buffer.old }
    ensures within { IfOk result (λ n. n ≤ length buffer.old) }
    ensures from { ReadFrom result (R.remaining reader.old) buffer.new }
{
    let mut at = 0;
    for _ in 0..u64::MAX {
        if at == buffer.len() {
            return Ok(at);
        }
        match reader.read(&mut buffer[at..]) {
            Ok(0) => return Ok(at),
            Ok(n) => at += n,
            Err(e) => {
                if e.kind() != ErrorKind::Interrupted {
                    return Err(Failure::Unread);
                }
            }
        }
    }
    if at < buffer.len() {
        return Err(Failure::Unread);
    }
    Ok(at)
}

// Writes the file's line, in one piece.
fn print_line<W: Write>(writer: &mut W, file: &[u8]) -> io::Result<()>
    ensures { OnOk result (IsPrinted file.now (W.contents writer.old) (W.contents writer.new)) }
{
    let mut table = [0u64; worktable::TABLE];
    let text = line::checked(file, &mut table).text();
    writer.write_all(&text.bytes[..text.len])
}

// Reads an input of any length and writes its line.
fn answer<R: Read, W: Write>(reader: &mut R, writer: &mut W) -> Result<(), Failure>
    ensures { IsAnswered result (R.remaining reader.old) (W.contents writer.old) (W.contents writer.new) }
{
    let mut buffer = [0u8; line::ROOM];
    let n = read_input(reader, &mut buffer)?;
    match print_line(writer, &buffer[..n]) {
        Ok(()) => Ok(()),
        Err(_) => Err(Failure::Unwritten),
    }
}

fn main(rt: HostRuntime) {
    if let Err(failure) = answer(&mut rt.stdin(), &mut rt.stdout()) {
        let _ = eprintln!(rt; "setcheck: {failure}");
    }
}
