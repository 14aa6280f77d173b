// The template file: its first fault in the order of reading, its numbers, and its three lists as parts of the lent file.
#![tactic(auto)]

ghost use Rattle.std.specs.Prelude.{◌≡◌, ◌+◌, ◌*◌, ◌≤◌, ◌<◌, length, Ok, IfOk, IfErr};
ghost use Rattle.entries.specs.Tests.{test, first_fault};
ghost use Rattle.entries.specs.Entries.{rule_width};
ghost use Rattle.template.specs.Layout.{first_body, half_at, bodies_end_of, part_of};
ghost use Rattle.template.specs.Order.{between, head_tests, contents_tests, bodies};
ghost use Rattle.template.specs.Order.{shape_of, reading_of, reading, answer, number};

use entries::{Body, Fault, Sizes, Test, first_fault, test_body};

// Where the first body begins: behind the head and the contents.
pub const FIRST_BODY: usize = 16;

// The most nonterminals, template rules and schema rules, and the length of the longest file.
pub const NONTERMINALS: usize = 64;

pub const RULES: usize = 256;

pub const SCHEMA_RULES: usize = 128;

pub const LONGEST: usize = FIRST_BODY + 4 * RULES + 4 * SCHEMA_RULES + hedge::STATES;

// How many symbols a template rule has, and how many a long one has.
pub const SYMBOLS: u8 = 2;

pub const LONG_SYMBOLS: u8 = 12;

// A sound file's numbers: names, nonterminals and states, and how many entries each body has.
#[derive(Clone, Copy, Debug, Default, PartialEq, Eq)]
pub struct Shape {
    pub names: u8,
    pub nonterminals: u8,
    pub states: u8,
    pub templates: u16,
    pub schema: u16,
    pub endings: u16,
}

// The 16-bit number at a place, little-endian.
fn half(file: &[u8], at: usize) -> u16
    requires { at + 1 < length file.now }
    ensures { result ≡ half_at file.now at }
{
    u16::from_le_bytes([file[at], file[at + 1]])
}

// Is there at least one, and no more than the most?
fn is_some_of(n: u8, most: usize) -> bool
    ensures { result ≡ between 1 n most }
{
    (1..=most).contains(&usize::from(n))
}

// A test of the order of reading: what must hold, or the fault is at this place.
fn at(place: usize, holds: bool) -> Test
    ensures { result ≡ test holds place }
{
    Test { holds, place }
}

// The length and bytes 0 to 3.
fn test_head(file: &[u8]) -> Result<(), Fault>
    ensures { result ≡ first_fault (head_tests file.now) }
{
    if file.len() < FIRST_BODY {
        return Err(Fault { place: 0 });
    }
    first_fault(&[
        at(0, is_some_of(file[0], words::NAMES)),
        at(1, is_some_of(file[1], NONTERMINALS)),
        at(2, is_some_of(file[2], hedge::STATES)),
        at(3, file[3] == 0),
    ])
}

// The bytes of this many template rules of so many symbols.
fn rules_bytes(symbols: u8, templates: u16) -> usize
    ensures { (result ≡ rule_width symbols * templates) × (result < 33554432) }
{
    (2 + usize::from(symbols)) * usize::from(templates)
}

// The numbers of the head and the contents.
fn shape_of(file: &[u8]) -> Shape
    requires { 16 ≤ length file.now }
    ensures { result ≡ shape_of file.now }
{
    Shape {
        names: file[0],
        nonterminals: file[1],
        states: file[2],
        templates: half(file, 6),
        schema: half(file, 10),
        endings: half(file, 14),
    }
}

// The contents, entry by entry, and the total length.
fn test_contents(file: &[u8], symbols: u8) -> Result<(), Fault>
    requires { 16 ≤ length file.now }
    ensures { result ≡ first_fault (contents_tests symbols file.now) }
{
    let s = shape_of(file);
    let second = FIRST_BODY + rules_bytes(symbols, s.templates);
    let third = second + 4 * usize::from(s.schema);
    let end = third + usize::from(s.endings);
    first_fault(&[
        at(4, usize::from(half(file, 4)) == FIRST_BODY),
        at(6, usize::from(s.templates) <= RULES),
        at(8, usize::from(half(file, 8)) == second),
        at(10, usize::from(s.schema) <= SCHEMA_RULES),
        at(12, usize::from(half(file, 12)) == third),
        at(14, s.endings <= u16::from(s.states)),
        at(0, file.len() == end),
    ])
}

// The three bodies in turn.
fn test_bodies(file: &[u8], s: Shape, symbols: u8) -> Result<(), Fault>
    requires s_value { s ≡ shape_of file.now }
    requires file_in_bounds { bodies_end_of symbols file.now ≤ length file.now }
    ensures { result ≡ first_fault (bodies symbols file.now) }
{
    let sizes = Sizes {
        names: s.names,
        nonterminals: s.nonterminals,
        states: s.states,
    };
    let second = FIRST_BODY + rules_bytes(symbols, s.templates);
    let third = second + 4 * usize::from(s.schema);
    test_body(
        file,
        sizes,
        Body::Templates(symbols),
        FIRST_BODY,
        usize::from(s.templates),
    )?;
    test_body(file, sizes, Body::Schema, second, usize::from(s.schema))?;
    test_body(file, sizes, Body::Endings, third, usize::from(s.endings))
}

// Reads a file whose template rules have so many symbols: any bytes may be lent.
pub fn read_of(file: &[u8], symbols: u8) -> Result<Shape, Fault>
    ensures { result ≡ reading_of symbols file.now }
{
    test_head(file)?;
    test_contents(file, symbols)?;
    let s = shape_of(file);
    test_bodies(file, s, symbols)?;
    Ok(s)
}

// Reads a template file: any bytes may be lent.
pub fn read(file: &[u8]) -> Result<Shape, Fault>
    ensures { result ≡ reading file.now }
{
    read_of(file, SYMBOLS)
}

// A lent file that is sound, with the numbers that reading it gave.
#[derive(Clone, Copy, Debug)]
pub struct Sound<'a> {
    pub file: &'a [u8],
    pub shape: Shape,
    pub ghost is_read: { reading file.now ≡ Ok shape },
}

impl<'a> Sound<'a> {
    // Reads a template file, which is kept with its numbers where it is sound: any bytes may be lent.
    pub fn read(file: &'a [u8]) -> Result<Sound<'a>, Fault>
        ensures sound { IfOk result (λ s. s.file.now ≡ file.now) }
        ensures bad { IfErr result (λ fault. reading file.now ≡ Err fault) }
    {
        let shape = read(file)?;
        Ok(Sound { file, shape })
    }
}

// The reading in numbers (Rules, section 9): 0, or 7 with the place of the first fault.
pub fn answer(r: Result<Shape, Fault>) -> u32
    ensures { result ≡ answer r }
{
    match r {
        Ok(_) => 0,
        Err(_) => 7,
    }
}

pub fn number(r: Result<Shape, Fault>) -> u64
    ensures { result ≡ number r }
{
    match r {
        Ok(_) => 0,
        Err(fault) => fault.place as u64,
    }
}

// The part of a file from a place on; where the file ends before it does, an empty part of the file.
fn part(file: &[u8], at: usize, len: usize) -> &[u8]
    requires { at + len ≤ 67108864 }
    ensures { result.now ≡ part_of file.now at len }
{
    file.get(at..at + len).unwrap_or(&file[..0])
}

// The template rules of so many symbols, where there are this many.
pub fn template_rules(file: &[u8], symbols: u8, templates: u16) -> &[u8]
    ensures { result.now ≡ part_of file.now first_body (rule_width symbols * templates) }
{
    part(file, FIRST_BODY, rules_bytes(symbols, templates))
}

// The schema rules, four bytes each, behind this many template rules of so many symbols.
pub fn schema_rules(file: &[u8], symbols: u8, templates: u16, schema: u16) -> &[u8]
    ensures { result.now ≡ part_of file.now (first_body + rule_width symbols * templates) (4 * schema) }
{
    let start = FIRST_BODY + rules_bytes(symbols, templates);
    part(file, start, 4 * usize::from(schema))
}

// The ending states, a byte each, behind this many template rules of so many symbols and schema rules.
pub fn ending_states(file: &[u8], symbols: u8, templates: u16, schema: u16, endings: u16) -> &[u8]
    ensures { result.now ≡ part_of file.now (first_body + rule_width symbols * templates + 4 * schema) endings }
{
    let start = FIRST_BODY + rules_bytes(symbols, templates) + 4 * usize::from(schema);
    part(file, start, usize::from(endings))
}
