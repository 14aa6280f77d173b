// Reads a run of bytes, tag by tag and left to right, into the two lent arrays of a reduced form. The first byte that is no tag, that
// makes a mismatch, or that makes one tag too many ends the reading at its place.
#![tactic(auto)]

ghost use Rattle.std.specs.Prelude.{◌≡◌};
ghost use Rattle.hedge.specs.Schema.{most_states};
ghost use Rattle.pieces.specs.Pieces.{most_tags, piece_at, pieces};
ghost use Rattle.form.specs.Held.{summary_of, Holds};
ghost use Rattle.form.specs.Steps.{after_tag};
ghost use Rattle.reader.specs.Reads.{Reads};
ghost use Rattle.reader.specs.Feeds.{stop_at, Fed, Progressed};

// Why reading ended, and at which place.
#[derive(Clone, Copy, Debug, PartialEq, Eq)]
pub enum Stop {
    NotATag(usize),
    Mismatch(usize),
    TooDeep(usize),
}

// The refusal of a tag, at its place.
fn stop_at(clash: form::Clash, at: usize) -> Stop
    ensures { result ≡ stop_at clash at }
{
    match clash {
        form::Clash::Mismatch(_, _) => Stop::Mismatch(at),
        form::Clash::TooDeep => Stop::TooDeep(at),
    }
}

// One byte more, where there are `known` names; `at` is its place.
fn then_byte(
    lore: &lore::Lore,
    names: &mut [u8; pieces::TAGS],
    values: &mut [u64; pieces::PIECES],
    c: form::Counts,
    known: u8,
    byte: u8,
    at: usize,
) -> Result<form::Counts, Stop>
    requires holds { Holds (summary_of c names.old values.old) }
    ensures { Fed result names.new values.new
        (after_tag lore.now.entries (summary_of c names.old values.old)) known byte at }
{
    let tag = words::class_of(known, byte).ok_or(Stop::NotATag(at))?;
    let step = match tag {
        words::Tag::Start(a) => form::then_tag(lore, names, values, c, false, a),
        words::Tag::End(a) => form::then_tag(lore, names, values, c, true, a),
    };
    step.map_err(|clash| stop_at(clash, at))
}

// Reads the bytes one by one into the arrays, which hold the empty word.
pub fn read_bytes(
    lore: &lore::Lore,
    names: &mut [u8; pieces::TAGS],
    values: &mut [u64; pieces::PIECES],
    known: u8,
    bytes: &[u8],
) -> Result<form::Counts, Stop>
    requires holds { Holds (summary_of (record { ends = 0; starts = 0 }) names.old values.old) }
    requires values_value { piece_at values.old 0 ≡ (pieces lore.now.entries).unit }
    ensures { Progressed result names.new values.new
        (Reads known (pieces lore.now.entries) most_tags bytes.now) }
{
    let mut c = form::counted(0, 0);
    for (i, byte) in bytes.iter().enumerate() {
        c = then_byte(lore, names, values, c, known, *byte, i)?;
    }
    Ok(c)
}
