// A template file shown as its three lists, which are parts of the lent file and no copies (Rules, section 4). A view holds the file and
// how many entries each list has. A getter takes the view apart and calls a covered function on the slice and the numbers.
#![tactic(auto)]

ghost use Rattle.std.specs.Prelude.{◌≡◌};
ghost use Rattle.template.specs.Order.{reading};
ghost use Rattle.view.specs.Views.{view_of, counted, templates_shown, schema_shown, endings_shown};

use template::{SYMBOLS, Shape};

// The file, and how many template rules, schema rules and ending states it has.
#[derive(Clone, Copy, Debug)]
pub struct View<'a> {
    pub file: &'a [u8],
    pub templates: u16,
    pub schema: u16,
    pub endings: u16,
}

impl<'a> View<'a> {
    // The view of a file with these numbers.
    pub fn of(file: &'a [u8], shape: Shape) -> View<'a>
        ensures { result ≡ view_of file.entry shape }
    {
        View {
            file,
            templates: shape.templates,
            schema: shape.schema,
            endings: shape.endings,
        }
    }

    // Reads a file and shows it: any bytes may be lent. A bad one has no numbers, so that it is shown with empty lists.
    pub fn shown(file: &'a [u8]) -> View<'a>
        ensures { result ≡ view_of file.entry (counted (reading file.now)) }
    {
        View::of(file, template::read(file).unwrap_or_default())
    }

    // The template rules, as a part of the lent file.
    pub fn templates(self) -> &'a [u8]
        ensures { result.now ≡ templates_shown self.entry }
    {
        template::template_rules(self.file, SYMBOLS, self.templates)
    }

    // The schema rules, behind the template rules.
    pub fn schema(self) -> &'a [u8]
        ensures { result.now ≡ schema_shown self.entry }
    {
        template::schema_rules(self.file, SYMBOLS, self.templates, self.schema)
    }

    // The ending states, behind both.
    pub fn endings(self) -> &'a [u8]
        ensures { result.now ≡ endings_shown self.entry }
    {
        template::ending_states(
            self.file,
            SYMBOLS,
            self.templates,
            self.schema,
            self.endings,
        )
    }
}
