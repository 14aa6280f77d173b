// One round's walk (Rules, section 8): the rules, and for each its pairs of images. The images before the round are the first rows of the
// lent table; what the walk finds goes behind them, so that no image of the same round is used. A pair of images of which both were there
// two rounds ago was joined then, and is passed over; rules with the same right side are walked once, under the first useful one. Which
// rules those are is found once a check, and a rule none of whose nonterminals has a new row costs one look a round.
#![tactic(auto)]

ghost use Rattle.std.specs.Prelude.{◌≡◌, ◌+◌, ◌*◌, ◌/◌, ◌<◌, ◌≤◌, ltb, length};
ghost use Rattle.hedge.specs.Schema.{most_states};
ghost use Rattle.template.specs.Layout.{most_rules};
ghost use Rattle.useful.specs.Marks.{RulesInRange};
ghost use Rattle.worktable.specs.Packed.{row_width, most_images};
ghost use Rattle.pairs.specs.Books.{book_of};
ghost use Rattle.pairs.specs.Slots.{slot_at, choices, new_from};
ghost use Rattle.pairs.specs.Turns.{slot_fits, lefts_of, left_from, right_from, Choosable};
ghost use Rattle.shares.specs.Shares.{Shares};
ghost use Rattle.walk.specs.News.{news, renews};
ghost use Rattle.walk.specs.Walks.{ProperRows, RoundBegins, Walked};

// Where a round begins: so many rows were there two rounds ago, so many are there now, and whether it is the first round.
#[derive(Clone, Copy, Debug, PartialEq, Eq)]
pub struct Round {
    pub prev: usize,
    pub rows: usize,
    pub first: bool,
}

// The slot of a place of rule i's right side, its first or its second.
fn slot(rules: &[u8], i: usize, place: usize) -> pairs::Slot
    requires in_bounds { i < length rules.now / 4 }
    requires two_places { place < 2 }
    ensures { result ≡ slot_at rules.now i place }
{
    let at = i * 4;
    pairs::slot_of(place < usize::from(rules[at + 1]), rules[at + 2 + place])
}

// How many choices a slot has among n rows.
fn choices(s: pairs::Slot, n: usize) -> usize
    ensures { result ≡ choices s n }
{
    match s {
        pairs::Slot::Absent | pairs::Slot::Single(_) => 1,
        pairs::Slot::Rows(_) => n,
    }
}

// From which choice on they are new in this round.
fn new_from(s: pairs::Slot, prev: usize, first: bool) -> usize
    ensures { result ≡ new_from s prev first }
{
    match s {
        pairs::Slot::Absent | pairs::Slot::Single(_) => usize::from(!first),
        pairs::Slot::Rows(_) => prev,
    }
}

// The first left choice to walk: where no right choice is new, only the new ones.
fn left_from(new_left: usize, new_right: usize, rights: usize) -> usize
    ensures { result ≡ left_from (ltb new_right rights) new_left }
{
    if new_right < rights {
        return 0;
    }
    new_left
}

// The first right choice to join with left choice j: all where j is new, only the new ones where it is not, none where j does not fit.
fn right_from(
    left: pairs::Slot,
    j: usize,
    table: &[u64],
    new_left: usize,
    new_right: usize,
    rights: usize,
) -> usize
    requires { Choosable table.now left j }
    ensures { result ≡ right_from (slot_fits left j table.now) (ltb j new_left) new_right rights }
{
    if pairs::fits(left, j, table) {
        if j < new_left {
            return new_right;
        }
        return 0;
    }
    rights
}

// The nonterminals that have a row from the a-th up to the e-th.
fn news(table: &[u64], a: usize, e: usize) -> u64
    requires { e * row_width ≤ length table.now }
    ensures { result ≡ news table.now a e }
{
    let mut marks = 0u64;
    for k in a..e {
        let x = worktable::nonterminal(pairs::row(table, k));
        marks = useful::mark(marks, usize::from(x) % 64);
    }
    marks
}

// Has the slot a new choice: is it the first round, or has its nonterminal a new row?
#[tactic(auto, unfolding(crate::specs::News::renews))]
fn renews(s: pairs::Slot, fresh: u64, first: bool) -> bool
    ensures { result ≡ renews s fresh first }
{
    match s {
        pairs::Slot::Absent | pairs::Slot::Single(_) => first,
        pairs::Slot::Rows(x) => first | useful::marked(fresh, usize::from(x) % 64),
    }
}

// How many left choices a rule has in the walk: none where neither slot has a new choice.
fn lefts_of(walked: bool, left: pairs::Slot, n: usize) -> usize
    ensures { result ≡ lefts_of walked (choices left n) }
{
    if walked {
        return choices(left, n);
    }
    0
}

// The walk of one round: its tally, or none where a mismatch stopped it.
pub fn walk_round(
    rules: &[u8],
    lore: &lore::Lore,
    shares: &[u64; template::RULES],
    table: &mut [u64],
    round: Round,
) -> Option<pairs::Tally>
    requires rules_in_range { RulesInRange rules.now }
    requires shares { Shares rules.now shares.now }
    requires rules_len_bound { length rules.now / 4 ≤ most_rules }
    requires proper_rows { ProperRows lore.now.entries rules.now (book_of table.old round.rows) }
    requires round_begins { RoundBegins lore.now.entries rules.now table.old round }
    ensures { Walked lore.now.entries rules.now (book_of table.old round.rows) result table.new }
{
    let prev = round.prev;
    let n = round.rows;
    let first = round.first;
    let fresh = news(table, prev, n);
    let mut found = pairs::Tally {
        rows: n,
        notes: pairs::Notes {
            invalid: false,
            deep: false,
            crowded: false,
        },
    };
    let event = 'walk: {
        for i in 0..rules.len() / 4 {
            let marks = shares[i];
            if marks == 0 {
                continue;
            }
            let left = slot(rules, i, 0);
            let right = slot(rules, i, 1);
            let walked = renews(left, fresh, first) | renews(right, fresh, first);
            let lefts = lefts_of(walked, left, n);
            let rights = choices(right, n);
            let new_left = new_from(left, prev, first);
            let new_right = new_from(right, prev, first);
            for j in left_from(new_left, new_right, rights)..lefts {
                for k in right_from(left, j, table, new_left, new_right, rights)..rights {
                    let pair = pairs::Selection { left, j, right, k };
                    let Some(tally) = pairs::one_turn(lore, pair, marks, table, found) else {
                        break 'walk None;
                    };
                    found = tally;
                }
            }
        }
        Some(found)
    };
    event
}
