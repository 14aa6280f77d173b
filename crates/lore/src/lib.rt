// A schema taught once a call into one lent table, its lore; the relation of an element around a word is then read off it: the entries of
// the inner states whose row meets the ending states, joined; for an element with nothing inside, of which pages have many, one entry, its
// leaf. What is read is at most eight entries, however many rules there are.
#![tactic(auto)]

ghost use Rattle.std.specs.Prelude.{◌≡◌, true, ◌+◌, ◌/◌, ◌<◌, ◌≤◌, length, get_or, set};
ghost use Rattle.std.specs.Int.Bits.{bit_or};
ghost use Rattle.numbers.specs.Bits.{number};
ghost use Rattle.numbers.specs.Fields.{field};
ghost use Rattle.words.specs.Tags.{most_names};
ghost use Rattle.hedge.specs.Schema.{most_states, RulesBelow, EndsBelow};
ghost use Rattle.hedge.specs.Operations.{relation, one_pair, compose};
ghost use Rattle.lore.specs.Lore.{lore_long, states_in, empty_in, NamesBelow, marked, leaf_of, place_of, zeros, Masks, Leaves, Taught};
ghost use Rattle.lore.specs.Lore.{meets, met_entry, taught_wrap, taught_accepts, Known};

// The entries of a lore before its leaves, those before its table, and all its entries.
const HEAD: usize = 8;

const TABLE: usize = HEAD + words::NAMES;

pub const LORE: usize = TABLE + words::NAMES * hedge::STATES;

// A schema that was taught: it is that of some rules and ending states.
#[derive(Drop)]
pub struct Lore {
    pub entries: [u64; LORE],
    pub ghost known: { Known most_states entries },
}

// The ending states as the bits of a number.
fn ending_marks(ends: &[u8]) -> u64
    requires { EndsBelow most_states ends.now }
    ensures { result ≡ number most_states (marked ends.now (length ends.now)) }
{
    let mut r = 0u64;
    for end in ends {
        r |= 1u64 << *end;
    }
    r
}

// The relation of one pair.
fn one_pair(x: usize, z: usize) -> u64
    requires x_lt_most_states { x < most_states }
    requires z_lt_most_states { z < most_states }
    ensures { result ≡ relation most_states (one_pair true x z) }
{
    1u64 << (x * hedge::STATES + z)
}

// The place of a name's leaf.
fn leaf(name: usize) -> usize
    requires { name < most_names }
    ensures { (result ≡ leaf_of name) × (result < lore_long most_states) }
{
    HEAD + name
}

// The place of a name and an inner state.
fn place(name: usize, y: usize) -> usize
    requires name_lt_most_names { name < most_names }
    requires y_lt_most_states { y < most_states }
    ensures { (result ≡ place_of most_states name y) × (result < lore_long most_states) }
{
    TABLE + (name * hedge::STATES + y)
}

// The relation of rule i's outer pair.
fn pair_of(rules: &[u8], i: usize) -> u64
    requires rules_below { RulesBelow most_states rules.now }
    requires i_in_bounds { i < length rules.now / 4 }
    ensures { result ≡ relation most_states (one_pair true (field rules.now i 0) (field rules.now i 3)) }
{
    one_pair(numbers::field(rules, i, 0), numbers::field(rules, i, 3))
}

// One entry joined with a pair.
fn add_pair(lore: &mut [u64; LORE], at: usize, pair: u64)
    requires { at < lore_long most_states }
    ensures { lore.new ≡ set lore.old at (bit_or (get_or lore.old at 0) pair) }
{
    lore[at] |= pair;
}

// Has row y of the relation a marked state?
#[tactic(auto, unfolding(crate::specs::Lore::meets))]
fn meets(r: u64, marks: u64, y: usize) -> bool
    requires { y < most_states }
    ensures { result ≡ meets most_states r marks y }
{
    0 < ((r >> (y * hedge::STATES)) & marks)
}

// Rule i, behind those before it: its pair is one of its name and inner state, and one of the name's leaf where the empty word leads that
// state to an ending one. All is read before the first entry is written, so that nothing is read twice.
fn teach_rule(rules: &[u8], i: usize, marks: u64, empty: u64, lore: &mut [u64; LORE])
    requires rules_below { RulesBelow most_states rules.now }
    requires names_below { NamesBelow most_names rules.now }
    requires i_in_bounds { i < length rules.now / 4 }
    requires masks { Masks most_states rules.now i lore.old }
    requires leaves { Leaves most_states marks empty rules.now i lore.old }
    ensures { Masks most_states rules.now (i + 1) lore.new
        × Leaves most_states marks empty rules.now (i + 1) lore.new }
{
    let name = numbers::field(rules, i, 1);
    let y = numbers::field(rules, i, 2);
    let pair = pair_of(rules, i);
    let bare = if meets(empty, marks, y) { pair } else { 0 };
    add_pair(lore, place(name, y), pair);
    add_pair(lore, leaf(name), bare);
}

// All rules.
fn teach_rules(rules: &[u8], marks: u64, empty: u64, lore: &mut [u64; LORE])
    requires rules_below { RulesBelow most_states rules.now }
    requires names_below { NamesBelow most_names rules.now }
    requires lore_value { lore.old ≡ zeros (lore_long most_states) }
    ensures { Masks most_states rules.now (length rules.now / 4) lore.new
        × Leaves most_states marks empty rules.now (length rules.now / 4) lore.new }
{
    for i in 0..rules.len() / 4 {
        teach_rule(rules, i, marks, empty, lore);
    }
}

// The number of states, the ending states and the relation of the empty word, before the table.
// Kept: `as`, since usize and u64 have no From between them, and a TryFrom has a way out that never comes.
fn put_head(lore: &mut [u64; LORE], states: usize, marks: u64, empty: u64)
    ensures { lore.new ≡ set (set (set lore.old 0 states) 1 marks) 2 empty }
{
    lore[0] = states as u64;
    lore[1] = marks;
    lore[2] = empty;
}

// The whole schema, into a table of zeros.
pub fn teach(rules: &[u8], ends: &[u8], states: usize, lore: &mut [u64; LORE])
    requires states_le_most_states { states ≤ most_states }
    requires rules_below { RulesBelow most_states rules.now }
    requires names_below { NamesBelow most_names rules.now }
    requires ends_below { EndsBelow most_states ends.now }
    requires lore_value { lore.old ≡ zeros (lore_long most_states) }
    ensures { Taught most_states states rules.now ends.now lore.new }
{
    let marks = ending_marks(ends);
    let empty = hedge::unit(states);
    teach_rules(rules, marks, empty, lore);
    put_head(lore, states, marks, empty);
}

impl Lore {
    // That of no state and no rule, for one to be taught.
    pub fn untaught() -> Self
        ensures { result.entries ≡ zeros (lore_long most_states) }
    {
        Lore {
            entries: [0u64; LORE],
        }
    }

    // The whole schema.
    pub fn teach(&mut self, rules: &[u8], ends: &[u8], states: usize)
        requires states_le_most_states { states ≤ most_states }
        requires rules_below { RulesBelow states rules.now }
        requires names_below { NamesBelow most_names rules.now }
        requires ends_below { EndsBelow states ends.now }
        requires lore_value { self.old.entries ≡ zeros (lore_long most_states) }
        ensures { Taught most_states states rules.now ends.now self.new.entries }
    {
        teach(rules, ends, states, &mut self.entries);
    }

    // The relation of two words in a row, the left one often empty.
    pub fn follow(&self, left: u64, right: u64) -> u64
        ensures { result ≡ compose most_states (states_in self.now.entries) left right }
    {
        hedge::follow(self.entries[0] as usize, self.entries[2], left, right)
    }

    // The relation of the element of this name around a word; no rule has a name past the most.
    pub fn wrap(&self, name: u8, inner: u64) -> u64
        ensures { result ≡ taught_wrap most_states self.now.entries name inner }
    {
        let a = usize::from(name);
        if words::NAMES <= a {
            return 0;
        }
        if inner == self.entries[2] {
            return self.entries[leaf(a)];
        }
        joined(&self.entries, a, inner)
    }
}

// The relation of the empty word. This and `accepts` read any entries, whether they were taught or not.
pub fn empty(lore: &[u64; LORE]) -> u64
    ensures { result ≡ empty_in lore.now }
{
    lore[2]
}

// Does state 0 derive a word of this relation?
pub fn accepts(lore: &[u64; LORE], r: u64) -> bool
    ensures { result ≡ taught_accepts most_states lore.now r }
{
    meets(r, lore[1], 0)
}

// A relation joined with the entry of inner state y, where its row meets the ending states.
fn join_entry(lore: &[u64; LORE], name: usize, inner: u64, y: usize, r: u64) -> u64
    requires name_lt_most_names { name < most_names }
    requires y_lt_most_states { y < most_states }
    ensures { result ≡ bit_or r (met_entry most_states lore.now name inner y) }
{
    if meets(inner, lore[1], y) {
        return r | lore[place(name, y)];
    }
    r
}

// The entries of a name's inner states whose row meets the ending states, joined.
fn joined(lore: &[u64; LORE], name: usize, inner: u64) -> u64
    requires { name < most_names }
    ensures { result ≡ taught_wrap most_states lore.now name inner }
{
    let mut r = 0u64;
    for y in 0..hedge::STATES {
        r = join_entry(lore, name, inner, y, r);
    }
    r
}
