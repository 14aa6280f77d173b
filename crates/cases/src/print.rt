// Numbers and answers, as a case's line on standard output has them, and the numbers of 16 bits that a case has.
use std::fmt::Display;
use std::io;

// A number with more behind it, and the last one.
pub fn word(rt: &impl Print, x: impl Display + Drop) -> io::Result<()> {
    print!(rt; "{x} ")
}

pub fn last_word(rt: &impl Print, x: impl Display + Drop) -> io::Result<()> {
    println!(rt; "{x}")
}

pub fn words<T: Display>(rt: &impl Print, numbers: &[T]) -> io::Result<()> {
    for x in numbers {
        word(rt, x)?;
    }
    Ok(())
}

pub fn answer(rt: &impl Print, a: u32, number: u64) -> io::Result<()> {
    word(rt, a)?;
    word(rt, number)
}

pub fn half(low: u8, high: u8) -> usize {
    usize::from(u16::from_le_bytes([low, high]))
}
