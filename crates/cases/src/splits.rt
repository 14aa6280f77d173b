// Files of long rules, split: L.
use crate::print::{answer, half, words};
use std::io;

// Splits a file into the first bytes of an output, which is filled with a byte first, and shows them all.
pub fn split_file(rt: &impl Print, bytes: &[u8]) -> io::Result<()> {
    if bytes.len() < 3 {
        return Ok(());
    }
    let len = half(bytes[0], bytes[1]);
    let mut out = [bytes[2]; template::LONGEST + 8];
    let Some(lent) = out.get_mut(..len) else {
        return Ok(());
    };
    let r = long::split(&bytes[3..], lent);
    answer(rt, long::answer(r), long::number(r))?;
    words(rt, lent)?;
    println!(rt)
}
