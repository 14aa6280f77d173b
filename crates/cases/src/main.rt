// Runs many cases from one standard input, and prints a line for each. A case is a letter, the 16-bit length of its bytes
// (little-endian), and the bytes. F is a template file, under which the cases after it stand; P a page; G a fragment; J two fragments to
// join, the left one's length first; S two summaries to join; N a summary's net depth; C a check, with its budget, the worktable's length
// and the byte that fills it; L a file of long rules to split, after the output's length and the byte that fills it. tests/make_cases.py writes
// the cases.
#![tactic(auto)]

ghost use Rattle.std.specs.Prelude.{◌≤◌, length};

mod checks;
mod files;
mod print;
mod splits;
mod summaries;

use std::io;
use std::io::Read;

// How many bytes of the input are looked at.
const READ: usize = 65536;

// What is left of the input, and the file that the next case stands under.
#[derive(Clone, Copy)]
struct Cursor<'a> {
    rest: &'a [u8],
    file: &'a [u8],
}

// A case by its letter.
fn run(rt: &impl Print, letter: u8, file: &[u8], bytes: &[u8]) -> io::Result<()> {
    match letter {
        b'F' => files::show_file(rt, bytes),
        b'P' => summaries::show_page(rt, file, bytes),
        b'G' => summaries::show_fragment(rt, file, bytes),
        b'J' => summaries::join_fragments(rt, file, bytes),
        b'S' => summaries::join_structs(rt, file, bytes),
        b'N' => summaries::show_depth(rt, file, bytes),
        b'C' => checks::check_file(rt, file, bytes),
        b'L' => splits::split_file(rt, bytes),
        _ => Ok(()),
    }
}

// The first case of what is left, if one is there, and what is left behind it. A file is the one that the next cases stand under.
fn one<'a>(rt: &impl Print, c: Cursor<'a>) -> io::Result<Option<Cursor<'a>>> {
    if c.rest.len() < 3 {
        return Ok(None);
    }
    let letter = c.rest[0];
    let len = print::half(c.rest[1], c.rest[2]);
    let Some((bytes, rest)) = c.rest[3..].split_at_checked(len) else {
        return Ok(None);
    };
    run(rt, letter, c.file, bytes)?;
    let file = if letter == b'F' { bytes } else { c.file };
    Ok(Some(Cursor { rest, file }))
}

fn all(rt: &impl Print, input: &[u8]) -> io::Result<()> {
    let mut c = Cursor {
        rest: input,
        file: &[],
    };
    for _ in 0..10000 {
        let Some(next) = one(rt, c)? else {
            return Ok(());
        };
        c = next;
    }
    Ok(())
}

// Reads to the end of the input, or until the buffer is full. A read that fails ends the input.
fn read_full<R: Read>(reader: &mut R, buffer: &mut [u8]) -> usize
    ensures { result ≤ length buffer.old }
{
    let mut at = 0;
    for _ in 0..buffer.len() {
        match reader.read(&mut buffer[at..]) {
            Ok(0) | Err(_) => return at,
            Ok(n) => at += n,
        }
    }
    at
}

fn main(rt: HostRuntime) -> io::Result<()> {
    let mut buffer = [0u8; READ];
    let n = read_full(&mut rt.stdin(), &mut buffer);
    all(&rt, &buffer[..n])
}
