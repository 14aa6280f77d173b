// Relations of at most eight states as numbers of 64 bits: the unit, composition, all pairs. Composition goes by rows of the right relation,
// but for an empty word on the left. What the numbers mean is shown in proofs/, over any number of states and any width of a row.
#![tactic(auto)]

ghost use Rattle.std.specs.Prelude.{◌≡◌, ◌*◌, ◌%◌, ◌^◌, ◌≤◌};
ghost use Rattle.numbers.specs.Bits.{number};
ghost use Rattle.hedge.specs.Schema.{most_states};
ghost use Rattle.hedge.specs.Relation.{has};
ghost use Rattle.hedge.specs.Operations.{first_column, through, relation, unit, compose, below_bit, full, covers};

// The most states.
pub const STATES: usize = 8;

// The first bit of each row: the relation of (x, 0) for each of the most states x.
const FIRST_COLUMN: u64 = 0x0101010101010101;

// The relation of (x, x) for each of the most states x.
const DIAGONAL: u64 = 0x8040201008040201;

// The rows of the states there are.
fn first_rows(states: usize, r: u64) -> u64
    requires { states ≤ most_states }
    ensures { result ≡ r % 2 ^ (states * 8) }
{
    if states < 8 {
        r % (1u64 << (states * 8))
    } else {
        r
    }
}

// The relation of the empty word: the first rows of that of all states.
pub fn unit(states: usize) -> u64
    requires { states ≤ most_states }
    ensures { result ≡ unit 8 states }
{
    first_rows(states, DIAGONAL)
}

// The first column: the first bit of each row, in its place.
fn column(r: u64) -> u64
    ensures { result ≡ relation 8 (first_column (has 8 r)) }
{
    r & FIRST_COLUMN
}

// The first row.
fn row(r: u64) -> u64
    ensures { result ≡ number 8 (has 8 r 0) }
{
    r % 256
}

// The first row of the right relation in each row of the left that has state 0: all rows at once, since a row times 0 or 1 stays in its
// place.
fn crossed(left: u64, right: u64) -> u64
    ensures { result ≡ relation 8 (through (has 8 left) (has 8 right) 0) }
{
    column(left) * row(right)
}

// The relation of two words in a row, by rows of the right one: for each state, what goes through it. Both relations are moved down by
// a state in each turn, since a shift by a fixed number of bits is cheaper than one by a computed number.
pub fn compose(states: usize, left: u64, right: u64) -> u64
    requires { states ≤ most_states }
    ensures { result ≡ compose 8 states left right }
{
    let mut r = 0u64;
    let mut a = left;
    let mut b = right;
    for _ in 0..states {
        r |= crossed(a, b);
        a >>= 1;
        b >>= 8;
    }
    r
}

// The relation of two words in a row, the left one often empty: what follows the empty word stays, but for rows of no state.
pub fn follow(states: usize, empty: u64, left: u64, right: u64) -> u64
    requires states_le_most_states { states ≤ most_states }
    requires empty_value { empty ≡ unit 8 states }
    ensures { result ≡ compose 8 states left right }
{
    if left == empty {
        return first_rows(states, right);
    }
    compose(states, left, right)
}

// A row of all states.
fn whole_row(states: usize) -> u64
    requires { states ≤ most_states }
    ensures { result ≡ number 8 (below_bit states) }
{
    (1u64 << states) - 1
}

// The relation of all pairs of states: the whole row in each row there is.
pub fn full(states: usize) -> u64
    requires { states ≤ most_states }
    ensures { result ≡ full 8 states }
{
    first_rows(states, FIRST_COLUMN) * whole_row(states)
}

// Does the relation s have every pair of r?
#[tactic(auto, unfolding(crate::specs::Operations::covers))]
pub fn covers(s: u64, r: u64) -> bool
    ensures { result ≡ covers s r }
{
    (r | s) == s
}
