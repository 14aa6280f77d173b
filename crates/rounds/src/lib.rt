// The check of a template set: useful nonterminals, then rounds of the walk against a budget, over the one lent worktable.
#![tactic(auto)]

ghost use Rattle.std.specs.Prelude.{◌≡◌, ◌≤◌, length, Ok};
ghost use Rattle.template.specs.Layout.{template_rules};
ghost use Rattle.schema.specs.Schemas.{LoreOf};
ghost use Rattle.rows.specs.Tables.{cleared};
ghost use Rattle.worktable.specs.Packed.{table_long};
ghost use Rattle.shares.specs.Shares.{Shares};
ghost use Rattle.rounds.specs.Walking.{Met, event_refusal};
ghost use Rattle.rounds.specs.Checks.{HasPage, Lent, CheckSays};
ghost use Rattle.rounds.specs.Answers.{answer, number, images};
ghost use Rattle.rounds.specs.declared.CheckRefusal.TheVariants.{BadFile};

use template::Sound;
use view::View;

// The most rounds that a budget allows.
pub const ROUNDS: usize = worktable::IMAGES + 1;

// A set that passed: in so many rounds, with so many images.
#[derive(Clone, Copy, Debug, PartialEq, Eq)]
pub struct Passed {
    pub rounds: usize,
    pub images: usize,
}

// Why a set did not pass, with the round, the budget or the place in the file.
#[derive(Clone, Copy, Debug, PartialEq, Eq)]
pub enum CheckRefusal {
    Mismatch(usize),
    Invalid(usize),
    TooDeep(usize),
    Crowded(usize),
    OutOfRounds(usize),
    NoPage,
    BadFile(usize),
    BadBudget,
    ShortTable,
}

pub type CheckReply = Result<Passed, CheckRefusal>;

impl From<entries::Fault> for CheckRefusal {
    ghost from_gives = { λ fault refusal. refusal ≡ BadFile fault.place };

    fn from(fault: entries::Fault) -> CheckRefusal {
        CheckRefusal::BadFile(fault.place)
    }
}

// What a round met, the lowest number first.
#[derive(Clone, Copy, Debug, PartialEq, Eq)]
pub enum Event {
    Mismatch,
    Invalid,
    TooDeep,
    Crowded,
}

// The rows after a walk, or the event that it met.
fn event_of(walked: Option<pairs::Tally>) -> Result<usize, Event>
    ensures { Met walked result }
{
    let tally = walked.ok_or(Event::Mismatch)?;
    let notes = tally.notes;
    if notes.invalid {
        return Err(Event::Invalid);
    }
    if notes.deep {
        return Err(Event::TooDeep);
    }
    if notes.crowded {
        return Err(Event::Crowded);
    }
    Ok(tally.rows)
}

// The refusal for an event of round r.
fn event_refusal(e: Event, r: usize) -> CheckRefusal
    ensures { result ≡ event_refusal e r }
{
    match e {
        Event::Mismatch => CheckRefusal::Mismatch(r),
        Event::Invalid => CheckRefusal::Invalid(r),
        Event::TooDeep => CheckRefusal::TooDeep(r),
        Event::Crowded => CheckRefusal::Crowded(r),
    }
}

// Zeros in all entries of the worktable.
fn wipe(table: &mut [u64])
    requires { table_long ≤ length table.old }
    ensures { table.new ≡ cleared table.old 0 table_long }
{
    rows::clear(table, 0, worktable::TABLE);
}

// Rounds until one decides or the budget is used, over the template rules of a sound file, its taught schema and the rules' shares.
fn rounds(
    sound: Sound<'_>,
    lore: &lore::Lore,
    shares: &[u64; template::RULES],
    table: &mut [u64],
    budget: usize,
) -> CheckReply
    requires lore_of { LoreOf sound.file.now lore.now.entries }
    requires shares { Shares (template_rules sound.file.now) shares.now }
    requires has_page { HasPage sound.file.now }
    requires lent { Lent sound.file.now table.old budget }
    ensures { CheckSays sound.entry.file.now table.old budget result table.new }
{
    let rules = View::of(sound.file, sound.shape).templates();
    let mut prev = 0;
    let mut n = 0;
    for r in 0..budget {
        let round = walk::Round {
            prev,
            rows: n,
            first: r == 0,
        };
        let walked = walk::walk_round(rules, lore, shares, table, round);
        let m = match event_of(walked) {
            Ok(m) => m,
            Err(e) => {
                wipe(table);
                return Err(event_refusal(e, r + 1));
            }
        };
        if m == n {
            rows::sort(table, worktable::ROW, n);
            rows::clear(table, n * worktable::ROW, worktable::TABLE);
            return Ok(Passed {
                rounds: r + 1,
                images: n,
            });
        }
        prev = n;
        n = m;
    }
    wipe(table);
    Err(CheckRefusal::OutOfRounds(budget))
}

// Checks a sound file. What does not change between rounds is found here, once.
fn check_sound(sound: Sound<'_>, table: &mut [u64], budget: usize) -> CheckReply
    requires { Lent sound.file.now table.old budget }
    ensures { CheckSays sound.entry.file.now table.old budget result table.new }
{
    let rules = View::of(sound.file, sound.shape).templates();
    let productive = useful::productive(rules);
    if !useful::marked(productive, 0) {
        return Err(CheckRefusal::NoPage);
    }
    let useful = useful::reached(rules, productive);
    let mut shares = [0u64; template::RULES];
    shares::share(rules, productive, useful, &mut shares);
    let mut lore = lore::Lore::untaught();
    schema::teach(sound, &mut lore);
    rounds(sound, &lore, &shares, table, budget)
}

// Checks a template set: the refusals 9, 8, 7 and 6 in this order, and only then the rounds (Rules, section 9).
pub fn check(file: &[u8], table: &mut [u64], budget: usize) -> CheckReply
    ensures { CheckSays file.now table.old budget result table.new }
{
    if table.len() < worktable::TABLE {
        return Err(CheckRefusal::ShortTable);
    }
    if !(1..=ROUNDS).contains(&budget) {
        return Err(CheckRefusal::BadBudget);
    }
    check_sound(Sound::read(file)?, table, budget)
}

// The reply in numbers (Rules, section 9).
pub fn answer(r: CheckReply) -> u32
    ensures { result ≡ answer r }
{
    match r {
        Ok(_) => 0,
        Err(CheckRefusal::Mismatch(_)) => 1,
        Err(CheckRefusal::Invalid(_)) => 2,
        Err(CheckRefusal::TooDeep(_)) => 3,
        Err(CheckRefusal::Crowded(_)) => 4,
        Err(CheckRefusal::OutOfRounds(_)) => 5,
        Err(CheckRefusal::NoPage) => 6,
        Err(CheckRefusal::BadFile(_)) => 7,
        Err(CheckRefusal::BadBudget) => 8,
        Err(CheckRefusal::ShortTable) => 9,
    }
}

// Kept: a usize becomes a u64 by `as`, for no From leads from the one to the other.
pub fn number(r: CheckReply) -> u64
    ensures { result ≡ number r }
{
    match r {
        Ok(passed) => passed.rounds as u64,
        Err(
            CheckRefusal::Mismatch(n)
            | CheckRefusal::Invalid(n)
            | CheckRefusal::TooDeep(n)
            | CheckRefusal::Crowded(n)
            | CheckRefusal::OutOfRounds(n)
            | CheckRefusal::BadFile(n),
        ) => n as u64,
        Err(CheckRefusal::NoPage | CheckRefusal::BadBudget | CheckRefusal::ShortTable) => 0,
    }
}

pub fn images(r: CheckReply) -> u64
    ensures { result ≡ images r }
{
    match r {
        Ok(passed) => passed.images as u64,
        Err(_) => 0,
    }
}
