// The schema of a sound file, taught once a call into a lent table. What a page's end means under a file is shown in proofs/.
#![tactic(auto)]

ghost use Rattle.std.specs.Prelude.{◌≡◌};
ghost use Rattle.hedge.specs.Schema.{most_states};
ghost use Rattle.lore.specs.Lore.{lore_long, zeros};
ghost use Rattle.schema.specs.Schemas.{LoreOf};

use view::View;

// Teaches the schema of a sound file, to a lore that was taught none.
pub fn teach(sound: template::Sound<'_>, lore: &mut lore::Lore)
    requires { lore.old.entries ≡ zeros (lore_long most_states) }
    ensures { LoreOf sound.entry.file.now lore.new.entries }
{
    let view = View::of(sound.file, sound.shape);
    lore.teach(
        view.schema(),
        view.endings(),
        usize::from(sound.shape.states),
    );
}
