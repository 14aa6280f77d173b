// Template files: F.
use crate::print::{last_word, word};
use std::io;

fn show_shape(rt: &impl Print, s: template::Shape) -> io::Result<()> {
    word(rt, s.names)?;
    word(rt, s.nonterminals)?;
    word(rt, s.states)?;
    word(rt, s.templates)?;
    word(rt, s.schema)?;
    last_word(rt, s.endings)
}

pub fn show_file(rt: &impl Print, file: &[u8]) -> io::Result<()> {
    let r = template::read(file);
    word(rt, template::answer(r))?;
    let Ok(s) = r else {
        return last_word(rt, template::number(r));
    };
    word(rt, template::number(r))?;
    show_shape(rt, s)
}
