// The value of a piece, read and written at a place of one flat lent array, and the operations on pieces. No other crate knows how a
// piece stands in the array.
#![tactic(auto)]

ghost use Rattle.std.specs.Prelude.{◌≡◌, true, ◌+◌, ◌≤◌};
ghost use Rattle.words.specs.Binoid.{Binoid};
ghost use Rattle.words.specs.Outermost.{at_most_several};
ghost use Rattle.hedge.specs.Schema.{most_states};
ghost use Rattle.pieces.specs.Pieces.{most_tags, zero_piece, piece_at, put_piece, pieces, fits_in, is_none, accepts_piece};

// The most tags of a form, the entries of a piece, and those of a form's pieces, one piece more than tags.
pub const TAGS: usize = 16;

pub const ENTRIES: usize = 2;

pub const PIECES: usize = (TAGS + 1) * ENTRIES;

// More outermost elements than one.
pub const SEVERAL: u64 = 2;

// What stands before, between or after the tags of a form: the relation of a balanced word, and how many outermost elements it has, 0, 1,
// or 2 for more.
#[derive(Clone, Copy, Debug, PartialEq, Eq)]
pub struct Piece {
    pub relation: u64,
    pub outermost: u64,
}

impl Piece {
    // What stands at an unused place.
    pub const NONE: Piece = Piece {
        relation: 0,
        outermost: 0,
    };
}

// Piece k of a form.
// Kept: two numbers to a piece in one flat array, so that what lies behind its end reads as no piece and no law needs one bound more.
#[tactic(auto, unfolding(crate::specs::Pieces::piece_at))]
pub fn piece_at(pieces: &[u64; PIECES], k: usize) -> Piece
    requires { k ≤ most_tags }
    ensures { result ≡ piece_at pieces.now k }
{
    let at = k * ENTRIES;
    Piece {
        relation: pieces[at],
        outermost: pieces[at + 1],
    }
}

// Writes piece k of a form.
#[tactic(auto, unfolding(crate::specs::Pieces::put_piece))]
pub fn put_piece(pieces: &mut [u64; PIECES], k: usize, p: Piece)
    requires { k ≤ most_tags }
    ensures { pieces.new ≡ put_piece pieces.old k p }
{
    let at = k * ENTRIES;
    pieces[at] = p.relation;
    pieces[at + 1] = p.outermost;
}

// Is it what stands at an unused place?
#[tactic(auto, unfolding(crate::specs::Pieces::is_none))]
pub fn is_none(p: Piece) -> bool
    ensures { result ≡ is_none p }
{
    p == Piece::NONE
}

// The empty word's.
pub fn empty(lore: &[u64; lore::LORE]) -> Piece
    ensures { result ≡ (pieces lore.now).unit }
{
    Piece {
        relation: lore::empty(lore),
        outermost: 0,
    }
}

// The outermost elements of two words in a row: what is too many on either side is too many.
#[tactic(auto, unfolding(words::specs::Outermost::at_most_several))]
fn added(m: u64, n: u64) -> u64
    ensures { result ≡ at_most_several (m + n) }
{
    if SEVERAL <= m || SEVERAL <= n {
        return SEVERAL;
    }
    m + n
}

// That of two words in a row.
pub fn follow(lore: &lore::Lore, left: Piece, right: Piece) -> Piece
    ensures { result ≡ (pieces lore.now.entries).compose left right }
{
    Piece {
        relation: lore.follow(left.relation, right.relation),
        outermost: added(left.outermost, right.outermost),
    }
}

// That of the element of this name around a word.
pub fn element(lore: &lore::Lore, name: u8, inner: Piece) -> Piece
    ensures { result ≡ (pieces lore.now.entries).wrap name inner }
{
    Piece {
        relation: lore.wrap(name, inner.relation),
        outermost: 1,
    }
}

// Does the piece stay within so many states, and is its count one of 0, 1 and 2?
#[tactic(auto, unfolding(crate::specs::Pieces::fits_in))]
pub fn fits(states: usize, p: Piece) -> bool
    requires { states ≤ most_states }
    ensures { result ≡ fits_in states p }
{
    hedge::covers(hedge::full(states), p.relation) && p.outermost <= SEVERAL
}

// Does state 0 derive a word of this piece, and is it one element?
#[tactic(auto, unfolding(crate::specs::Pieces::accepts_piece))]
pub fn accepts(lore: &[u64; lore::LORE], p: Piece) -> bool
    ensures { result ≡ accepts_piece lore.now p }
{
    lore::accepts(lore, p.relation) && p.outermost == 1
}
