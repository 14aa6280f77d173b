// The entries of a file's bodies: the tests of an entry in their order, and its first fault.
#![tactic(auto)]

ghost use Rattle.std.specs.Prelude.{◌≡◌, [], ◌∷◌, ◌+◌, ◌*◌, ◌<◌, ◌≤◌, length};
ghost use Rattle.entries.specs.Tests.{test, or_then, first_fault};
ghost use Rattle.entries.specs.Entries.{rule_width, is_symbol, symbol_holds, symbol_tests, field_tests};
ghost use Rattle.entries.specs.Entries.{width, precedes, ascends, entry_tests, body_tests};

// A fault of a file: the place of the first test that fails.
#[derive(Clone, Copy, Debug, PartialEq, Eq)]
pub struct Fault {
    pub place: usize,
}

// The three bodies of a file; a template rule has so many symbols.
#[derive(Clone, Copy)]
pub enum Body {
    Templates(u8),
    Schema,
    Endings,
}

// A file's three numbers, which its entries are tested by: names, nonterminals and states.
#[derive(Clone, Copy)]
pub struct Sizes {
    pub names: u8,
    pub nonterminals: u8,
    pub states: u8,
}

// What must hold, and the place that is given where it does not.
#[derive(Clone, Copy, Debug, PartialEq, Eq)]
pub struct Test {
    pub holds: bool,
    pub place: usize,
}

// One test of the order of reading.
fn ask(holds: bool, place: usize) -> Result<(), Fault>
    ensures { result ≡ first_fault (test holds place ∷ []) }
{
    if holds { Ok(()) } else { Err(Fault { place }) }
}

// Tests in their order: the first that fails decides.
pub fn first_fault(tests: &[Test]) -> Result<(), Fault>
    ensures { result ≡ first_fault tests.now }
{
    for t in tests {
        ask(t.holds, t.place)?;
    }
    Ok(())
}

// Is the byte a tag or a nonterminal of a file with that many names and nonterminals? The ranges are asked from the lowest on.
fn is_symbol(names: u8, nonterminals: u8, byte: u8) -> bool
    ensures { result ≡ is_symbol names nonterminals byte }
{
    if byte < names {
        return true;
    }
    let b = usize::from(byte);
    if b < 32 {
        return false;
    }
    if b < 32 + usize::from(names) {
        return true;
    }
    if b < 64 {
        return false;
    }
    b < 64 + usize::from(nonterminals)
}

// A used place holds a symbol, an unused one 255.
fn symbol_holds(used: bool, names: u8, nonterminals: u8, byte: u8) -> bool
    ensures { result ≡ symbol_holds used names nonterminals byte }
{
    if used {
        is_symbol(names, nonterminals, byte)
    } else {
        byte == 255
    }
}

// A template rule's symbols, left to right.
fn test_symbols(file: &[u8], s: Sizes, symbols: u8, at: usize) -> Result<(), Fault>
    requires { at + rule_width symbols ≤ length file.now }
    ensures { result ≡ first_fault (symbol_tests s.names s.nonterminals file.now at 0 symbols) }
{
    let used = usize::from(file[at + 1]);
    for j in 0..usize::from(symbols) {
        let place = at + 2 + j;
        let holds = symbol_holds(j < used, s.names, s.nonterminals, file[place]);
        ask(holds, place)?;
    }
    Ok(())
}

// A template rule's fields, left to right. Here and in a schema rule a fault leaves at once, so that a sound entry costs a comparison a field.
fn test_rule(file: &[u8], s: Sizes, symbols: u8, at: usize) -> Result<(), Fault>
    requires { at + rule_width symbols ≤ length file.now }
    ensures { result ≡ first_fault (field_tests (Body.Templates symbols) s.names s.nonterminals s.states file.now at) }
{
    ask(file[at] < s.nonterminals, at)?;
    ask(file[at + 1] <= symbols, at + 1)?;
    test_symbols(file, s, symbols, at)
}

// A schema rule's fields, left to right.
fn test_schema_rule(file: &[u8], s: Sizes, at: usize) -> Result<(), Fault>
    requires { at + 4 ≤ length file.now }
    ensures { result ≡ first_fault (field_tests Body.Schema s.names s.nonterminals s.states file.now at) }
{
    ask(file[at] < s.states, at)?;
    ask(file[at + 1] < s.names, at + 1)?;
    ask(file[at + 2] < s.states, at + 2)?;
    ask(file[at + 3] < s.states, at + 3)
}

// How many bytes an entry has.
fn width(body: Body) -> usize
    ensures { result ≡ width body }
{
    match body {
        Body::Templates(symbols) => 2 + usize::from(symbols),
        Body::Schema => 4,
        Body::Endings => 1,
    }
}

// An entry's fields, left to right.
fn test_fields(file: &[u8], s: Sizes, body: Body, at: usize) -> Result<(), Fault>
    requires { at + width body ≤ length file.now }
    ensures { result ≡ first_fault (field_tests body s.names s.nonterminals s.states file.now at) }
{
    match body {
        Body::Templates(symbols) => test_rule(file, s, symbols, at),
        Body::Schema => test_schema_rule(file, s, at),
        Body::Endings => ask(file[at] < s.states, at),
    }
}

// Is the first byte in which the two differ smaller on the left?
fn precedes(left: &[u8], right: &[u8]) -> bool
    ensures { result ≡ precedes left.now right.now }
{
    for (x, y) in left.iter().zip(right) {
        if x != y {
            return x < y;
        }
    }
    false
}

// Is the entry its body's first, or the one before it smaller?
fn ascends(file: &[u8], wide: usize, first: usize, at: usize) -> bool
    requires { (first < at → wide ≤ at) × (at + wide ≤ length file.now) }
    ensures { result ≡ ascends wide file.now first at }
{
    if at <= first {
        return true;
    }
    let before = at - wide;
    let end = at + wide;
    precedes(&file[before..at], &file[at..end])
}

// One entry: its fields, then the ascent.
fn test_entry(file: &[u8], s: Sizes, body: Body, first: usize, at: usize) -> Result<(), Fault>
    requires { (first < at → width body ≤ at) × (at + width body ≤ length file.now) }
    ensures { result ≡ first_fault (entry_tests body s.names s.nonterminals s.states file.now first at) }
{
    test_fields(file, s, body, at)?;
    ask(ascends(file, width(body), first, at), at)
}

// The entries of a body in turn: the first fault decides.
pub fn test_body(file: &[u8], s: Sizes, body: Body, first: usize, count: usize) -> Result<(), Fault>
    requires { first + width body * count ≤ length file.now }
    ensures { result ≡ first_fault (body_tests body s.names s.nonterminals s.states file.now first first count) }
{
    let wide = width(body);
    for k in 0..count {
        test_entry(file, s, body, first, first + wide * k)?;
    }
    Ok(())
}
