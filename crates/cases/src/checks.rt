// Checks: C.
use crate::print::{answer, half, word, words};
use std::io;

// Rows are shown of fewer images than these.
const MANY: usize = 16;

// The entries of the longest table.
const ENTRIES: usize = 5500;

fn count_of(entries: &[u64], x: u64) -> usize {
    entries.iter().filter(|entry| **entry == x).count()
}

// The worktable after a check: how many of the entries behind the rows, up to 5,376, are 0 and how many still hold what filled them; how
// many past 5,376 do; and the rows, where they are few.
fn show_table(rt: &impl Print, table: &[u64], images: usize, fill: u64) -> io::Result<()> {
    let end = table.len().min(worktable::TABLE);
    let rows = end.min(images.min(worktable::IMAGES) * worktable::ROW);
    let behind = &table[rows..end];
    word(rt, count_of(behind, 0))?;
    word(rt, count_of(behind, fill))?;
    word(rt, count_of(&table[end..], fill))?;
    if images < MANY {
        words(rt, &table[..rows])?;
    }
    println!(rt)
}

// A check over the first entries of a table, which is filled with a number first.
pub fn check_file(rt: &impl Print, file: &[u8], bytes: &[u8]) -> io::Result<()> {
    if bytes.len() < 5 {
        return Ok(());
    }
    let budget = half(bytes[0], bytes[1]);
    let len = half(bytes[2], bytes[3]);
    let fill = u64::from(bytes[4]);
    let mut table = [fill; ENTRIES];
    let Some(lent) = table.get_mut(..len) else {
        return Ok(());
    };
    let r = rounds::check(file, lent, budget);
    let images = rounds::images(r);
    answer(rt, rounds::answer(r), rounds::number(r))?;
    word(rt, images)?;
    show_table(rt, lent, images as usize, fill)
}
