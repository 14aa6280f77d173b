// The page reader: reads a fragment, and then puts it to the two tests of a whole page. Any file and any bytes may be lent.
#![tactic(auto)]

ghost use Rattle.std.specs.Prelude.{◌≡◌, Ok};
ghost use Rattle.form.specs.Held.{form_of, last_of, Holds};
ghost use Rattle.form.specs.Endings.{ending_of};
ghost use Rattle.page.specs.declared.PageRefusal.TheVariants.{BadFile};
ghost use Rattle.page.specs.Pages.{PageSays, stopped, flawed, tested, answer, number};

use template::Sound;

// Why a page is not valid, with the place of the fault.
#[derive(Clone, Copy, Debug, PartialEq, Eq)]
pub enum PageRefusal {
    BadFile(usize),
    NotATag(usize),
    Mismatch(usize),
    TooDeep(usize),
    Unmatched,
    NotDerived,
}

impl From<entries::Fault> for PageRefusal {
    ghost from_gives = { λ fault r. r ≡ BadFile fault.place };

    fn from(fault: entries::Fault) -> PageRefusal {
        PageRefusal::BadFile(fault.place)
    }
}

impl From<reader::Stop> for PageRefusal {
    ghost from_gives = { λ stop r. r ≡ stopped stop };

    fn from(stop: reader::Stop) -> PageRefusal {
        match stop {
            reader::Stop::NotATag(p) => PageRefusal::NotATag(p),
            reader::Stop::Mismatch(p) => PageRefusal::Mismatch(p),
            reader::Stop::TooDeep(p) => PageRefusal::TooDeep(p),
        }
    }
}

impl From<form::Flaw> for PageRefusal {
    ghost from_gives = { λ flaw r. r ≡ flawed flaw };

    fn from(flaw: form::Flaw) -> PageRefusal {
        match flaw {
            form::Flaw::Unmatched => PageRefusal::Unmatched,
            form::Flaw::NotDerived => PageRefusal::NotDerived,
        }
    }
}

// The two tests at the end of what was read without refusal.
fn tested(lore: &lore::Lore, s: form::Summary) -> Result<(), PageRefusal>
    requires { Holds s }
    ensures { result ≡ tested (ending_of lore.now.entries (form_of s) (last_of s)) }
{
    let c = s.counts;
    let last = pieces::piece_at(&s.values, c.ends + c.starts);
    form::ending_of(&lore.entries, c, last)?;
    Ok(())
}

// Reads a page under a sound file.
fn read_under(sound: Sound<'_>, bytes: &[u8]) -> Result<(), PageRefusal>
    ensures { PageSays sound.entry.file.now bytes.now result }
{
    let mut lore = lore::Lore::untaught();
    schema::teach(sound, &mut lore);
    let s = summary::summarise(&lore, sound.shape.names, bytes)?;
    tested(&lore, s)
}

// Reads a page: 7; 10, 11 or 12 where the reading ends; 13; 14; else it is valid (Rules, section 9).
pub fn read(file: &[u8], bytes: &[u8]) -> Result<(), PageRefusal>
    ensures { PageSays file.now bytes.now result }
{
    read_under(Sound::read(file)?, bytes)
}

// The reply in numbers (Rules, section 9).
pub fn answer(r: Result<(), PageRefusal>) -> u32
    ensures { result ≡ answer r }
{
    match r {
        Ok(()) => 0,
        Err(PageRefusal::BadFile(_)) => 7,
        Err(PageRefusal::NotATag(_)) => 10,
        Err(PageRefusal::Mismatch(_)) => 11,
        Err(PageRefusal::TooDeep(_)) => 12,
        Err(PageRefusal::Unmatched) => 13,
        Err(PageRefusal::NotDerived) => 14,
    }
}

pub fn number(r: Result<(), PageRefusal>) -> u64
    ensures { result ≡ number r }
{
    match r {
        Err(
            PageRefusal::BadFile(p)
            | PageRefusal::NotATag(p)
            | PageRefusal::Mismatch(p)
            | PageRefusal::TooDeep(p),
        ) => p as u64,
        Ok(()) | Err(PageRefusal::Unmatched | PageRefusal::NotDerived) => 0,
    }
}
