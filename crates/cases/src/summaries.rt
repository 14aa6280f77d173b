// Pages and summaries: P, G, J, S and N.
ghost use Rattle.std.specs.Prelude.{◌+◌, ◌≤◌, length};
ghost use Rattle.pieces.specs.Pieces.{most_tags};

use crate::print::{answer, last_word, word, words};
use std::io;

// Where the parts of a struct in a case's bytes begin: ends, starts, 16 names, 17 relations of eight bytes, 17 counts of outermost elements of
// one; and its bytes in all, 171.
const NAMES: usize = 2;

const RELATIONS: usize = NAMES + pieces::TAGS;

const COUNTS: usize = RELATIONS + 8 * (pieces::TAGS + 1);

const STRUCT: usize = COUNTS + pieces::TAGS + 1;

pub fn show_page(rt: &impl Print, file: &[u8], bytes: &[u8]) -> io::Result<()> {
    let r = page::read(file, bytes);
    answer(rt, page::answer(r), page::number(r))?;
    println!(rt)
}

// The ends, the starts, the names, the relations and the counts of outermost elements, all of them.
fn show_summary(rt: &impl Print, s: form::Summary) -> io::Result<()> {
    word(rt, s.counts.ends)?;
    word(rt, s.counts.starts)?;
    words(rt, &s.names)?;
    show_relations(rt, &s.values)?;
    show_outermost(rt, &s.values)
}

fn show_relations(rt: &impl Print, values: &[u64; pieces::PIECES]) -> io::Result<()> {
    for k in 0..=pieces::TAGS {
        let p = pieces::piece_at(values, k);
        word(rt, p.relation)?;
    }
    Ok(())
}

fn show_outermost(rt: &impl Print, values: &[u64; pieces::PIECES]) -> io::Result<()> {
    for k in 0..pieces::TAGS {
        let p = pieces::piece_at(values, k);
        word(rt, p.outermost)?;
    }
    let last = pieces::piece_at(values, pieces::TAGS);
    last_word(rt, last.outermost)
}

pub fn show_fragment(rt: &impl Print, file: &[u8], bytes: &[u8]) -> io::Result<()> {
    let r = summary::fragment(file, bytes);
    let a = r.answer;
    answer(rt, summary::fragment_answer(a), summary::fragment_number(a))?;
    show_summary(rt, r.summary)
}

fn show_join(rt: &impl Print, r: summary::JoinReply) -> io::Result<()> {
    let a = r.answer;
    answer(rt, summary::join_answer(a), summary::join_number(a))?;
    show_summary(rt, r.summary)
}

// Joins the summaries of two runs of bytes, the first as long as the first byte says.
pub fn join_fragments(rt: &impl Print, file: &[u8], bytes: &[u8]) -> io::Result<()> {
    let Some((cut, bytes)) = bytes.split_first() else {
        return Ok(());
    };
    let Some((left, right)) = bytes.split_at_checked(usize::from(*cut)) else {
        return Ok(());
    };
    let left = summary::fragment(file, left);
    let right = summary::fragment(file, right);
    show_join(rt, summary::join(file, left.summary, right.summary))
}

// The number of eight bytes at a place, the first lowest.
fn relation_at(bytes: &[u8], at: usize) -> u64
    requires { at + 8 ≤ length bytes.now }
{
    let mut eight = [0u8; 8];
    eight.copy_from_slice(&bytes[at..at + 8]);
    u64::from_le_bytes(eight)
}

// The names of the struct at a place.
fn names_at(bytes: &[u8], at: usize) -> [u8; pieces::TAGS]
    requires { at + 171 ≤ length bytes.now }
{
    let mut names = [0u8; pieces::TAGS];
    names.copy_from_slice(&bytes[at + NAMES..at + RELATIONS]);
    names
}

// Piece k of the struct at a place.
fn piece_in(bytes: &[u8], at: usize, k: usize) -> pieces::Piece
    requires { (at + 171 ≤ length bytes.now) × (k ≤ most_tags) }
{
    pieces::Piece {
        relation: relation_at(bytes, at + RELATIONS + 8 * k),
        outermost: u64::from(bytes[at + COUNTS + k]),
    }
}

// The pieces of the struct at a place.
fn values_at(bytes: &[u8], at: usize) -> [u64; pieces::PIECES]
    requires { at + 171 ≤ length bytes.now }
{
    let mut values = [0u64; pieces::PIECES];
    for k in 0..=pieces::TAGS {
        pieces::put_piece(&mut values, k, piece_in(bytes, at, k));
    }
    values
}

// The struct at a place.
fn summary_at(bytes: &[u8], at: usize) -> form::Summary
    requires { at + 171 ≤ length bytes.now }
{
    form::Summary {
        counts: form::counted(usize::from(bytes[at]), usize::from(bytes[at + 1])),
        names: names_at(bytes, at),
        values: values_at(bytes, at),
    }
}

pub fn join_structs(rt: &impl Print, file: &[u8], bytes: &[u8]) -> io::Result<()> {
    if bytes.len() < 2 * STRUCT {
        return Ok(());
    }
    let left = summary_at(bytes, 0);
    let right = summary_at(bytes, STRUCT);
    show_join(rt, summary::join(file, left, right))
}

// The net depths that cases have, spelled out.
fn show_net(rt: &impl Print, z: i32) -> io::Result<()> {
    match z {
        -16 | -1 | 0 | 16 => println!(rt; "{z}"),
        _ => println!(rt; "another"),
    }
}

pub fn show_depth(rt: &impl Print, file: &[u8], bytes: &[u8]) -> io::Result<()> {
    if bytes.len() < STRUCT {
        return Ok(());
    }
    let s = summary_at(bytes, 0);
    let d = summary::net_depth(file, s);
    answer(rt, summary::depth_answer(d), summary::depth_number(d))?;
    show_net(rt, summary::depth_of(d))
}
