// Fragment summaries: read from a run of bytes, joined, and their net depth. Any file, any bytes and any struct may be lent: each call
// looks at them first, in the order of refusals (Rules, section 9).
#![tactic(auto)]

ghost use Rattle.std.specs.Prelude.{◌≡◌, true, ◌↔◌, ◌+◌, ◌≤◌, ◌<◌, pos, ◌-ℤ◌, length, Ok};
ghost use Rattle.hedge.specs.Schema.{most_states};
ghost use Rattle.pieces.specs.Pieces.{most_tags, most_pieces, pieces};
ghost use Rattle.template.specs.Order.{reading};
ghost use Rattle.reader.specs.Reads.{Reads};
ghost use Rattle.summary.specs.declared.FragmentRefusal.TheVariants as fragment;
ghost use Rattle.summary.specs.declared.JoinRefusal.TheVariants as joined;
ghost use Rattle.summary.specs.declared.DepthRefusal.TheVariants as depth;
ghost use Rattle.summary.specs.Packing.{IsSummary, every, name_fits, piece_fits};
ghost use Rattle.summary.specs.Replies.{stopped, clashed, reply_of, found_in};
ghost use Rattle.summary.specs.Fragments.{FragmentSays, FragmentFinds};
ghost use Rattle.summary.specs.Joins.{SummaryUnder, JoinSays, DepthSays};
ghost use Rattle.summary.specs.Answers.{fragment_answer, fragment_number, join_answer, join_number, depth_answer, depth_number, net_depth};

use template::Sound;

// Why a fragment has no summary, with the place of the fault.
#[derive(Clone, Copy, Debug, PartialEq, Eq)]
pub enum FragmentRefusal {
    BadFile(usize),
    NotATag(usize),
    Mismatch(usize),
    TooDeep(usize),
}

// Why two summaries are not joined.
#[derive(Clone, Copy, Debug, PartialEq, Eq)]
pub enum JoinRefusal {
    BadFile(usize),
    NoSummary,
    Mismatch,
    TooDeep,
}

// Why there is no net depth.
#[derive(Clone, Copy, Debug, PartialEq, Eq)]
pub enum DepthRefusal {
    BadFile(usize),
    NoSummary,
}

// The answer, and beside it the summary, all zeros where it was refused: the form that a reply has in Rules, section 9.
#[derive(Clone, Copy)]
pub struct Reply<E> {
    pub answer: Result<(), E>,
    pub summary: form::Summary,
}

pub type FragmentReply = Reply<FragmentRefusal>;

pub type JoinReply = Reply<JoinRefusal>;

impl From<entries::Fault> for FragmentRefusal {
    ghost from_gives = { λ fault r. r ≡ fragment.BadFile fault.place };

    fn from(fault: entries::Fault) -> FragmentRefusal {
        FragmentRefusal::BadFile(fault.place)
    }
}

impl From<entries::Fault> for JoinRefusal {
    ghost from_gives = { λ fault r. r ≡ joined.BadFile fault.place };

    fn from(fault: entries::Fault) -> JoinRefusal {
        JoinRefusal::BadFile(fault.place)
    }
}

impl From<entries::Fault> for DepthRefusal {
    ghost from_gives = { λ fault r. r ≡ depth.BadFile fault.place };

    fn from(fault: entries::Fault) -> DepthRefusal {
        DepthRefusal::BadFile(fault.place)
    }
}

impl From<reader::Stop> for FragmentRefusal {
    ghost from_gives = { λ stop r. r ≡ stopped stop };

    fn from(stop: reader::Stop) -> FragmentRefusal {
        match stop {
            reader::Stop::NotATag(i) => FragmentRefusal::NotATag(i),
            reader::Stop::Mismatch(i) => FragmentRefusal::Mismatch(i),
            reader::Stop::TooDeep(i) => FragmentRefusal::TooDeep(i),
        }
    }
}

impl From<form::Clash> for JoinRefusal {
    ghost from_gives = { λ clash r. r ≡ clashed clash };

    fn from(clash: form::Clash) -> JoinRefusal {
        match clash {
            form::Clash::Mismatch(_, _) => JoinRefusal::Mismatch,
            form::Clash::TooDeep => JoinRefusal::TooDeep,
        }
    }
}

// The summary of a refusal.
const ZEROS: form::Summary = form::Summary {
    counts: form::Counts { ends: 0, starts: 0 },
    names: [0u8; pieces::TAGS],
    values: [0u64; pieces::PIECES],
};

// The answer as a reply, with the summary that was written, or zeros where it was refused.
// Kept: the zeros are written over the summary, since a `match` that chooses one of two summaries costs two copies more.
fn reply_of<E>(answer: Result<(), E>, summary: &mut form::Summary) -> Reply<E>
    ensures { result ≡ reply_of (found_in answer summary.old) }
{
    if answer.is_err() {
        *summary = ZEROS;
    }
    Reply {
        answer: answer,
        summary: *summary,
    }
}

// Reads the bytes under a schema that was taught, where there are `known` names.
pub fn summarise(lore: &lore::Lore, known: u8, bytes: &[u8]) -> Result<form::Summary, reader::Stop>
    ensures { FragmentFinds (Reads known (pieces lore.now.entries) most_tags bytes.now) result }
{
    let mut names = [0u8; pieces::TAGS];
    let mut values = [0u64; pieces::PIECES];
    pieces::put_piece(&mut values, 0, pieces::empty(&lore.entries));
    let counts = reader::read_bytes(lore, &mut names, &mut values, known, bytes)?;
    Ok(form::Summary {
        counts: counts,
        names: names,
        values: values,
    })
}

// Writes the summary of a fragment under the file, or answers the first reason why there is none. Here and in `join_under` a summary is
// written where it is wanted, since one that goes by value through each `Result` is copied each time.
fn fragment_under(
    file: &[u8],
    bytes: &[u8],
    summary: &mut form::Summary,
) -> Result<(), FragmentRefusal>
    ensures { FragmentSays file.now bytes.now (reply_of (found_in result summary.new)) }
{
    let sound = Sound::read(file)?;
    let mut lore = lore::Lore::untaught();
    schema::teach(sound, &mut lore);
    *summary = summarise(&lore, sound.shape.names, bytes)?;
    Ok(())
}

// The summary of a fragment: 7; 10, 11 or 12 where the reading ends; else the reduced form.
pub fn fragment(file: &[u8], bytes: &[u8]) -> FragmentReply
    ensures { FragmentSays file.now bytes.now result }
{
    let mut summary = ZEROS;
    let found = fragment_under(file, bytes, &mut summary);
    reply_of(found, &mut summary)
}

// The names in use are below the number of names, the others 0.
// Kept: a loop of its own beside that of `pieces_fit`, since one loop over a closure for the test of a place is no shorter.
fn names_fit(names: &[u8], n: usize, known: u8) -> bool
    requires { length names.now ≡ most_tags }
    ensures { result ≡ every most_tags (name_fits known n names.now) }
{
    for (k, name) in names.iter().enumerate() {
        let fits = if k < n { *name < known } else { *name == 0 };
        if !fits {
            return false;
        }
    }
    true
}

// The pieces in use stay within the states, the others are none.
fn pieces_fit(values: &[u64; pieces::PIECES], n: usize, states: usize) -> bool
    requires { states ≤ most_states }
    ensures { result ≡ every most_pieces (piece_fits states n values.now) }
{
    for k in 0..=pieces::TAGS {
        let p = pieces::piece_at(values, k);
        let fits = if k <= n {
            pieces::fits(states, p)
        } else {
            pieces::is_none(p)
        };
        if !fits {
            return false;
        }
    }
    true
}

// Is the struct a summary, with so many names and states?
fn is_summary(s: &form::Summary, known: u8, states: usize) -> bool
    requires { states ≤ most_states }
    ensures { (result ≡ true) ↔ IsSummary known states s.now }
{
    let c = s.counts;
    if pieces::TAGS < c.ends {
        return false;
    }
    if pieces::TAGS - c.ends < c.starts {
        return false;
    }
    let n = c.ends + c.starts;
    names_fit(&s.names, n, known) && pieces_fit(&s.values, n, states)
}

// Joins two summaries under a sound file, in place of the left one. Nothing is said of what a refusal leaves there.
fn join_summaries(
    sound: Sound<'_>,
    left: &mut form::Summary,
    right: &form::Summary,
) -> Result<(), JoinRefusal>
    requires summary_under { SummaryUnder sound.file.now left.old }
    requires summary_under_2 { SummaryUnder sound.file.now right.now }
    ensures { JoinSays sound.entry.file.now left.old right.now (reply_of (found_in result left.new)) }
{
    let mut lore = lore::Lore::untaught();
    schema::teach(sound, &mut lore);
    let counts = form::then_form(
        &lore,
        &mut left.names,
        &mut left.values,
        left.counts,
        &right.names,
        &right.values,
        right.counts,
    )?;
    left.counts = counts;
    Ok(())
}

// Joins two summaries under the file, in place of the left one, or answers the first reason why there is no joined summary.
fn join_under(
    file: &[u8],
    left: &mut form::Summary,
    right: &form::Summary,
) -> Result<(), JoinRefusal>
    ensures { JoinSays file.now left.old right.now (reply_of (found_in result left.new)) }
{
    let sound = Sound::read(file)?;
    let shape = sound.shape;
    if !is_summary(left, shape.names, usize::from(shape.states)) {
        return Err(JoinRefusal::NoSummary);
    }
    if !is_summary(right, shape.names, usize::from(shape.states)) {
        return Err(JoinRefusal::NoSummary);
    }
    join_summaries(sound, left, right)
}

// The summary of two fragments in a row, from their summaries: 7, 15, 11, 12; else the joined summary.
pub fn join(file: &[u8], left: form::Summary, right: form::Summary) -> JoinReply
    ensures { JoinSays file.now left right result }
{
    let mut summary = left;
    let found = join_under(file, &mut summary, &right);
    reply_of(found, &mut summary)
}

// Starts minus ends.
// Kept: `as`, since both are at most 16, and a conversion that can fail would ask for an answer that cannot come.
fn difference(starts: usize, ends: usize) -> i32
    requires { ends + starts ≤ most_tags }
    ensures { result ≡ pos starts -ℤ pos ends }
{
    (starts as i32) - (ends as i32)
}

// The net depth of a summary: 7, 15; else starts minus ends.
pub fn net_depth(file: &[u8], s: form::Summary) -> Result<i32, DepthRefusal>
    ensures { DepthSays file.now s result }
{
    let shape = template::read(file)?;
    if !is_summary(&s, shape.names, usize::from(shape.states)) {
        return Err(DepthRefusal::NoSummary);
    }
    let c = s.counts;
    Ok(difference(c.starts, c.ends))
}

// The replies in numbers (Rules, section 9).
pub fn fragment_answer(a: Result<(), FragmentRefusal>) -> u32
    ensures { result ≡ fragment_answer a }
{
    match a {
        Ok(()) => 0,
        Err(FragmentRefusal::BadFile(_)) => 7,
        Err(FragmentRefusal::NotATag(_)) => 10,
        Err(FragmentRefusal::Mismatch(_)) => 11,
        Err(FragmentRefusal::TooDeep(_)) => 12,
    }
}

// Kept: `as u64` from a place, since there is no `u64::from(usize)`.
pub fn fragment_number(a: Result<(), FragmentRefusal>) -> u64
    ensures { result ≡ fragment_number a }
{
    match a {
        Ok(()) => 0,
        Err(
            FragmentRefusal::BadFile(p)
            | FragmentRefusal::NotATag(p)
            | FragmentRefusal::Mismatch(p)
            | FragmentRefusal::TooDeep(p),
        ) => p as u64,
    }
}

pub fn join_answer(a: Result<(), JoinRefusal>) -> u32
    ensures { result ≡ join_answer a }
{
    match a {
        Ok(()) => 0,
        Err(JoinRefusal::BadFile(_)) => 7,
        Err(JoinRefusal::NoSummary) => 15,
        Err(JoinRefusal::Mismatch) => 11,
        Err(JoinRefusal::TooDeep) => 12,
    }
}

pub fn join_number(a: Result<(), JoinRefusal>) -> u64
    ensures { result ≡ join_number a }
{
    match a {
        Err(JoinRefusal::BadFile(p)) => p as u64,
        Ok(()) | Err(JoinRefusal::NoSummary | JoinRefusal::Mismatch | JoinRefusal::TooDeep) => 0,
    }
}

pub fn depth_answer(r: Result<i32, DepthRefusal>) -> u32
    ensures { result ≡ depth_answer r }
{
    match r {
        Ok(_) => 0,
        Err(DepthRefusal::BadFile(_)) => 7,
        Err(DepthRefusal::NoSummary) => 15,
    }
}

pub fn depth_number(r: Result<i32, DepthRefusal>) -> u64
    ensures { result ≡ depth_number r }
{
    match r {
        Err(DepthRefusal::BadFile(p)) => p as u64,
        Ok(_) | Err(DepthRefusal::NoSummary) => 0,
    }
}

pub fn depth_of(r: Result<i32, DepthRefusal>) -> i32
    ensures { result ≡ net_depth r }
{
    r.unwrap_or(0)
}
