// One pair of choices under rules with the same right side: its two slots loaded from the rows of a table, joined, and the form noted for
// the left side of each rule. What is new goes behind the rows that are there.
#![tactic(auto)]

ghost use Rattle.std.specs.Prelude.{◌≡◌, true, List, ℕ, ◌+◌, ◌*◌, ◌≤◌, eqb, length, Some};
ghost use Rattle.words.specs.Reduced.{Stack, tags};
ghost use Rattle.hedge.specs.Schema.{most_states};
ghost use Rattle.pieces.specs.declared.Piece.{Piece};
ghost use Rattle.pieces.specs.Pieces.{most_tags, piece_at, pieces, Counted};
ghost use Rattle.form.specs.Held.{tag_count, summary_of, form_of, last_of, Holds};
ghost use Rattle.worktable.specs.Packed.{row_width, most_images, table_long, nonterminal_in, RowOf};
ghost use Rattle.pairs.specs.Books.{table_row};
ghost use Rattle.pairs.specs.Slots.{slot_of};
ghost use Rattle.pairs.specs.Turns.{slot_fits, SomePairRow, Choosable, TagForm, FormOf, Loads, invalid_form, after_deep};
ghost use Rattle.pairs.specs.Turns.{PairNoted, FormsNoted, Turned};

// What stands at a place of a rule's right side: nothing, a tag, or the rows of a nonterminal.
#[derive(Clone, Copy, Debug, PartialEq, Eq)]
pub enum Slot {
    Absent,
    Single(words::Tag),
    Rows(u8),
}

// Choice j of the left slot with choice k of the right one.
#[derive(Clone, Copy, Debug, PartialEq, Eq)]
pub struct Selection {
    pub left: Slot,
    pub j: usize,
    pub right: Slot,
    pub k: usize,
}

// What a walk noted: an invalid page, a string of more than 16 tags, more than 256 images.
#[derive(Clone, Copy, Debug, PartialEq, Eq)]
pub struct Notes {
    pub invalid: bool,
    pub deep: bool,
    pub crowded: bool,
}

// So many rows, and these notes.
// Kept: the number of rows stands here, beside the table, for a caller lends the table as a slice of the worktable's fixed length.
#[derive(Clone, Copy, Debug, PartialEq, Eq)]
pub struct Tally {
    pub rows: usize,
    pub notes: Notes,
}

// What a byte stands for at a place that is used or not.
#[tactic(auto, unfolding(crate::specs::Slots::slot_of))]
pub fn slot_of(used: bool, byte: u8) -> Slot
    ensures { result ≡ slot_of used byte }
{
    if !used {
        return Slot::Absent;
    }
    match byte {
        0..=31 => Slot::Single(words::Tag::Start(byte)),
        32..=63 => Slot::Single(words::Tag::End(byte - 32)),
        _ => Slot::Rows(byte - 64),
    }
}

// Row k of a table.
pub fn row(table: &[u64], k: usize) -> &[u64]
    requires { k * row_width + row_width ≤ length table.now }
    ensures { result.now ≡ table_row table.now k }
{
    let at = k * worktable::ROW;
    let end = at + worktable::ROW;
    &table[at..end]
}

// Is row k one of the nonterminal x?
fn row_fits(table: &[u64], k: usize, x: u8) -> bool
    requires { k * row_width + row_width ≤ length table.now }
    ensures { result ≡ eqb (nonterminal_in (table_row table.now k)) x }
{
    worktable::nonterminal(row(table, k)) == x
}

// Is choice k of the slot one of its own: no row of another nonterminal?
#[tactic(auto, unfolding(crate::specs::Turns::slot_fits))]
pub fn fits(s: Slot, k: usize, table: &[u64]) -> bool
    requires { Choosable table.now s k }
    ensures { result ≡ slot_fits s k table.now }
{
    match s {
        Slot::Absent | Slot::Single(_) => true,
        Slot::Rows(x) => row_fits(table, k, x),
    }
}

// Puts a tag's own form into two arrays of zeros: so many ends and starts.
fn load_tag(
    empty: pieces::Piece,
    tag: words::Tag,
    names: &mut [u8; pieces::TAGS],
    values: &mut [u64; pieces::PIECES],
) -> form::Counts
    requires counted { Counted empty }
    requires holds { Holds (summary_of (record { ends = 0; starts = 0 }) names.old values.old) }
    ensures { Loads (TagForm empty tag) (Some result) names.new values.new }
{
    pieces::put_piece(values, 0, empty);
    pieces::put_piece(values, 1, empty);
    match tag {
        words::Tag::Start(a) => {
            names[0] = a;
            form::counted(0, 1)
        }
        words::Tag::End(a) => {
            names[0] = a;
            form::counted(1, 0)
        }
    }
}

// Puts the form of row k into two arrays, where it is one of the nonterminal x; a row of another nonterminal is none.
fn load_row(
    table: &[u64],
    k: usize,
    x: u8,
    names: &mut [u8; pieces::TAGS],
    values: &mut [u64; pieces::PIECES],
) -> Option<form::Counts>
    requires row_width_in_bounds { k * row_width + row_width ≤ length table.now }
    requires some_pair_row { SomePairRow (table_row table.now k) }
    ensures { Loads (RowOf (table_row table.now k) x) result names.new values.new }
{
    if !row_fits(table, k, x) {
        return None;
    }
    Some(worktable::unpack(row(table, k), names, values))
}

// Puts choice k of a slot into two arrays of zeros, with so many ends and starts; a row of another nonterminal is no choice.
fn load(
    empty: pieces::Piece,
    s: Slot,
    k: usize,
    table: &[u64],
    names: &mut [u8; pieces::TAGS],
    values: &mut [u64; pieces::PIECES],
) -> Option<form::Counts>
    requires counted { Counted empty }
    requires choosable { Choosable table.now s k }
    requires holds { Holds (summary_of (record { ends = 0; starts = 0 }) names.old values.old) }
    ensures { Loads (FormOf empty table.now s k) result names.new values.new }
{
    match s {
        Slot::Absent => {
            pieces::put_piece(values, 0, empty);
            Some(form::counted(0, 0))
        }
        Slot::Single(tag) => Some(load_tag(empty, tag, names, values)),
        Slot::Rows(x) => load_row(table, k, x, names, values),
    }
}

// Is the form one of the start that is no page's?
fn invalid_form(lore: &lore::Lore, x: u8, c: form::Counts, values: &[u64; pieces::PIECES]) -> bool
    requires { tag_count c ≤ most_tags }
    ensures { (s : Stack Piece) → tags s ≡ tag_count c
        → result ≡ invalid_form lore.now.entries (record { of = x; form = s; last = piece_at values.now (tag_count c) }) }
{
    x == 0
        && form::ending_of(
            &lore.entries,
            c,
            pieces::piece_at(values, c.ends + c.starts),
        )
        .is_err()
}

// The row of a form of x.
fn row_of(
    x: u8,
    c: form::Counts,
    names: &[u8; pieces::TAGS],
    values: &[u64; pieces::PIECES],
) -> [u64; worktable::ROW]
    requires { Holds (summary_of c names.now values.now) }
    ensures { RowOf result x (form_of (summary_of c names.now values.now))
        (last_of (summary_of c names.now values.now)) }
{
    worktable::pack(x, c, names, values)
}

// A form of x, and its row: the row goes behind the others, unless it stands among them or there is no room.
fn note_form(
    lore: &lore::Lore,
    x: u8,
    c: form::Counts,
    values: &[u64; pieces::PIECES],
    row: &[u64; worktable::ROW],
    table: &mut [u64],
    found: Tally,
) -> Tally
    requires room { tag_count c ≤ most_tags }
    requires table_long_in_bounds { table_long ≤ length table.old }
    requires rows_le_most_images { found.rows ≤ most_images }
    ensures { (s : Stack Piece) → tags s ≡ tag_count c → RowOf row.now x s (piece_at values.now (tag_count c))
        → PairNoted lore.now.entries (record { of = x; form = s; last = piece_at values.now (tag_count c) }) table.old found result table.new }
{
    let rows = found.rows;
    let mut notes = found.notes;
    notes.invalid |= invalid_form(lore, x, c, values);
    if notes.crowded {
        return Tally { rows, notes };
    }
    if rows::holds(table, rows, row) {
        return Tally { rows, notes };
    }
    if worktable::IMAGES <= rows {
        notes.crowded = true;
        return Tally { rows, notes };
    }
    rows::add(table, rows, row);
    Tally {
        rows: rows + 1,
        notes,
    }
}

// The tally after a form of every marked nonterminal where one found no room before: no row is looked for any more, and only a form of the
// start can be an invalid page.
fn noted_crowded(
    lore: &lore::Lore,
    marks: u64,
    c: form::Counts,
    values: &[u64; pieces::PIECES],
    found: Tally,
) -> Tally
    requires room { tag_count c ≤ most_tags }
    requires crowded { found.notes.crowded ≡ true }
    ensures { (s : Stack Piece) (t : List ℕ) → tags s ≡ tag_count c
        → FormsNoted lore.now.entries marks s (piece_at values.now (tag_count c)) t found 64 result t }
{
    let mut tally = found;
    tally.notes.invalid |= useful::marked(marks, 0) & invalid_form(lore, 0, c, values);
    tally
}

// A form of each marked nonterminal, in turn. Their rows differ in the nonterminal alone, so the form is packed once for all of them. No
// turn is made once no mark is left, for mostly there is one.
fn note_forms(
    lore: &lore::Lore,
    marks: u64,
    c: form::Counts,
    names: &[u8; pieces::TAGS],
    values: &[u64; pieces::PIECES],
    table: &mut [u64],
    found: Tally,
) -> Tally
    requires holds { Holds (summary_of c names.now values.now) }
    requires table_long_in_bounds { table_long ≤ length table.old }
    requires rows_le_most_images { found.rows ≤ most_images }
    ensures { FormsNoted lore.now.entries marks (form_of (summary_of c names.now values.now))
        (last_of (summary_of c names.now values.now)) table.old found 64 result table.new }
{
    if found.notes.crowded {
        return noted_crowded(lore, marks, c, values, found);
    }
    let mut tally = found;
    let mut row = row_of(0, c, names, values);
    for x in 0..64u8 {
        let rest = marks >> x;
        if rest == 0 {
            return tally;
        }
        if rest % 2 == 1 {
            worktable::put_nonterminal(&mut row, x);
            tally = note_form(lore, x, c, values, &row, table, tally);
        }
    }
    tally
}

// The tally after more than 16 tags of every marked nonterminal.
fn noted_deep(marks: u64, found: Tally) -> Tally
    ensures { result ≡ record { rows = found.rows; notes = after_deep marks found.notes } }
{
    let mut tally = found;
    tally.notes.invalid |= useful::marked(marks, 0);
    tally.notes.deep = true;
    tally
}

// One pair of choices under rules of every marked nonterminal: joined once for all of them. Most right rows are other nonterminals', so the
// right choice is looked at before any array is made. None: a mismatch.
pub fn one_turn(
    lore: &lore::Lore,
    pair: Selection,
    marks: u64,
    table: &mut [u64],
    found: Tally,
) -> Option<Tally>
    requires choosable { Choosable table.old pair.left pair.j }
    requires choosable_2 { Choosable table.old pair.right pair.k }
    requires table_long_in_bounds { table_long ≤ length table.old }
    requires rows_le_most_images { found.rows ≤ most_images }
    ensures { Turned lore.now.entries table.old pair marks found result table.new }
{
    if !fits(pair.right, pair.k, table) {
        return Some(found);
    }
    let empty = pieces::empty(&lore.entries);
    let mut tags = [0u8; pieces::TAGS];
    let mut parts = [0u64; pieces::PIECES];
    let b = load(empty, pair.right, pair.k, table, &mut tags, &mut parts);
    let Some(more) = b else {
        return Some(found);
    };
    let mut names = [0u8; pieces::TAGS];
    let mut values = [0u64; pieces::PIECES];
    let a = load(empty, pair.left, pair.j, table, &mut names, &mut values);
    let Some(c) = a else {
        return Some(found);
    };
    let t = form::then_form(lore, &mut names, &mut values, c, &tags, &parts, more);
    match t {
        Ok(d) => Some(note_forms(lore, marks, d, &names, &values, table, found)),
        Err(form::Clash::Mismatch(_, _)) => None,
        Err(form::Clash::TooDeep) => Some(noted_deep(marks, found)),
    }
}
