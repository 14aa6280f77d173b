// What a byte of a page or fragment is. The crate's theory of words and their reduced forms is in specs/ and
// proofs/.
#![tactic(auto)]

ghost use Rattle.words.specs.Classes.{Classed};

// The most element names.
pub const NAMES: usize = 32;

// The start tag or the end tag of a name.
#[derive(Clone, Copy, Debug, PartialEq, Eq)]
pub enum Tag {
    Start(u8),
    End(u8),
}

// The tag that the byte spells where there are this many element names, if any. Names are below 32, however many are asked for.
pub fn class_of(names: u8, byte: u8) -> Option<Tag>
    ensures { Classed names byte result }
{
    match byte {
        0..32 if byte < names => Some(Tag::Start(byte)),
        32..64 if byte - 32 < names => Some(Tag::End(byte - 32)),
        _ => None,
    }
}
