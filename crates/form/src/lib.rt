// A reduced form held in two lent arrays, the names of its tags and its pieces, with the numbers of its ends and starts beside them; one tag
// more, a whole form more, and the two tests at a page's end. The arrays are lent, and no summary goes by value, because a copy for each
// tag would take most of the time.
#![tactic(auto)]

ghost use Rattle.std.specs.Prelude.{◌≡◌, ◌+◌, ◌-◌, ◌<◌, ◌≤◌, true, set};
ghost use Rattle.words.specs.Reduced.{Stack, tags};
ghost use Rattle.hedge.specs.Schema.{most_states};
ghost use Rattle.pieces.specs.declared.Piece.{Piece};
ghost use Rattle.pieces.specs.Pieces.{most_tags, zero_piece, piece_at, put_piece, pieces};
ghost use Rattle.form.specs.Held.{tag_of, tag_count, summary_of, Holds};
ghost use Rattle.form.specs.Steps.{Stepped, after_tag, after_form};
ghost use Rattle.form.specs.Endings.{balance_of, ending_of};

// How many unmatched ends and starts.
#[derive(Clone, Copy, Debug, PartialEq, Eq)]
pub struct Counts {
    pub ends: usize,
    pub starts: usize,
}

// A reduced form by value: the numbers of its unmatched ends and starts, the names of the tags in their order, and the piece before each
// tag and after the last.
// Kept: arrays of fixed size with the counts beside them, which is the form of a summary in Rules, section 6.
#[derive(Clone, Copy)]
pub struct Summary {
    pub counts: Counts,
    pub names: [u8; pieces::TAGS],
    pub values: [u64; pieces::PIECES],
}

// Why a tag is not kept: a start and an end of different names met; more than 16 tags.
#[derive(Clone, Copy, Debug, PartialEq, Eq)]
pub enum Clash {
    Mismatch(u8, u8),
    TooDeep,
}

// Why a form is no page: tags are left unmatched, or it is not derived, which is also what is not one element.
#[derive(Clone, Copy, Debug, PartialEq, Eq)]
pub enum Flaw {
    Unmatched,
    NotDerived,
}

pub fn counted(ends: usize, starts: usize) -> Counts
    ensures { result ≡ record { ends = ends; starts = starts } }
{
    Counts {
        ends: ends,
        starts: starts,
    }
}

// A tag behind the n first, and this piece behind it.
fn put_tag(
    names: &mut [u8; pieces::TAGS],
    values: &mut [u64; pieces::PIECES],
    n: usize,
    name: u8,
    value: pieces::Piece,
)
    requires { n < most_tags }
    ensures { (names.new ≡ set names.old n name)
        × (values.new ≡ put_piece values.old (n + 1) value) }
{
    names[n] = name;
    pieces::put_piece(values, n + 1, value);
}

// The last of n tags goes, and one piece takes the place of the two beside it.
fn take_tag(
    names: &mut [u8; pieces::TAGS],
    values: &mut [u64; pieces::PIECES],
    n: usize,
    value: pieces::Piece,
)
    requires { (0 < n) × (n ≤ most_tags) }
    ensures { (names.new ≡ set names.old (n - 1) 0)
        × (values.new ≡ put_piece (put_piece values.old n zero_piece) (n - 1) value) }
{
    names[n - 1] = 0;
    pieces::put_piece(values, n, pieces::Piece::NONE);
    pieces::put_piece(values, n - 1, value);
}

// The piece of a word and, behind it, the element of this name around another word.
#[inline(always)]
fn closed(lore: &lore::Lore, name: u8, before: pieces::Piece, inner: pieces::Piece) -> pieces::Piece
    ensures { result ≡ (pieces lore.now.entries).compose before ((pieces lore.now.entries).wrap name inner) }
{
    let element = pieces::element(lore, name, inner);
    pieces::follow(lore, before, element)
}

// An end tag where starts stand unmatched: it meets the innermost.
#[inline(always)]
fn meet(
    lore: &lore::Lore,
    names: &mut [u8; pieces::TAGS],
    values: &mut [u64; pieces::PIECES],
    c: Counts,
    name: u8,
) -> Result<Counts, Clash>
    requires holds { Holds (summary_of c names.old values.old) }
    requires starts_nonzero { 0 < c.starts }
    ensures { Stepped result names.new values.new
        (after_tag lore.now.entries (summary_of c names.old values.old) (tag_of true name)) }
{
    let n = c.ends + c.starts;
    let open = names[n - 1];
    if open != name {
        return Err(Clash::Mismatch(open, name));
    }
    let value = closed(
        lore,
        name,
        pieces::piece_at(values, n - 1),
        pieces::piece_at(values, n),
    );
    take_tag(names, values, n, value);
    Ok(counted(c.ends, c.starts - 1))
}

// One tag more. It stands in its callers' loops: reading, which passes `closes` as a constant, is faster by that.
#[inline(always)]
pub fn then_tag(
    lore: &lore::Lore,
    names: &mut [u8; pieces::TAGS],
    values: &mut [u64; pieces::PIECES],
    c: Counts,
    closes: bool,
    name: u8,
) -> Result<Counts, Clash>
    requires holds { Holds (summary_of c names.old values.old) }
    ensures { Stepped result names.new values.new
        (after_tag lore.now.entries (summary_of c names.old values.old) (tag_of closes name)) }
{
    let n = c.ends + c.starts;
    if closes & (0 < c.starts) {
        return meet(lore, names, values, c, name);
    }
    if pieces::TAGS <= n {
        return Err(Clash::TooDeep);
    }
    put_tag(names, values, n, name, pieces::empty(&lore.entries));
    if closes {
        return Ok(counted(c.ends + 1, 0));
    }
    Ok(counted(c.ends, c.starts + 1))
}

// A balanced word of this piece more, behind n tags.
fn add_value(lore: &lore::Lore, values: &mut [u64; pieces::PIECES], n: usize, value: pieces::Piece)
    requires n_le_most_tags { n ≤ most_tags }
    ensures { values.new
        ≡ put_piece values.old n ((pieces lore.now.entries).compose (piece_at values.old n) value) }
{
    let before = pieces::piece_at(values, n);
    let both = pieces::follow(lore, before, value);
    pieces::put_piece(values, n, both);
}

// A whole form more, whose tags and pieces stand in arrays of its own. Its first end meets the start that was opened last, its next end
// the one before that, from the seam outward (Rules, section 7).
pub fn then_form(
    lore: &lore::Lore,
    names: &mut [u8; pieces::TAGS],
    values: &mut [u64; pieces::PIECES],
    c: Counts,
    tags: &[u8; pieces::TAGS],
    parts: &[u64; pieces::PIECES],
    more: Counts,
) -> Result<Counts, Clash>
    requires holds { Holds (summary_of c names.old values.old) }
    requires more_bound { tag_count more ≤ most_tags }
    ensures { Stepped result names.new values.new
        (after_form lore.now.entries (summary_of c names.old values.old)
        (summary_of more tags.now parts.now)) }
{
    add_value(lore, values, c.ends + c.starts, pieces::piece_at(parts, 0));
    let closing = more.ends;
    let count = more.ends + more.starts;
    let mut d = c;
    for k in 0..count {
        d = then_tag(lore, names, values, d, k < closing, tags[k])?;
        add_value(
            lore,
            values,
            d.ends + d.starts,
            pieces::piece_at(parts, k + 1),
        );
    }
    Ok(d)
}

// The piece of what is balanced, where no tag is left unmatched.
fn balance_of(c: Counts, last: pieces::Piece) -> Option<pieces::Piece>
    requires { tag_count c ≤ most_tags }
    ensures { result ≡ balance_of c last }
{
    if 0 < c.ends + c.starts {
        return None;
    }
    Some(last)
}

// The two tests at a page's end, on a form with so many tags and this piece after them.
pub fn ending_of(lore: &[u64; lore::LORE], c: Counts, last: pieces::Piece) -> Result<(), Flaw>
    requires { tag_count c ≤ most_tags }
    ensures { (form : Stack Piece) → tags form ≡ tag_count c → result ≡ ending_of lore.now form last }
{
    let whole = balance_of(c, last).ok_or(Flaw::Unmatched)?;
    if pieces::accepts(lore, whole) {
        return Ok(());
    }
    Err(Flaw::NotDerived)
}
