// Writing a template file: the head and the contents, then each body into the part of the lent bytes that begins at its computed offset.
#![tactic(auto)]

ghost use Rattle.std.specs.Prelude.{◌≡◌, ◌++◌, ◌+◌, ◌*◌, ◌≤◌, ◌<◌, length, drop};
ghost use Rattle.std.proofs.lemmas.List.Edits.{sets};
ghost use Rattle.template.specs.Layout.{first_body, most_rules, most_schema_rules};
ghost use Rattle.save.specs.Files.{numbers_of, half_bytes, head_for, file_for, over, Counted};

// Where the schema rules begin.
fn second_body(shape: template::Shape) -> usize
    requires { shape.templates ≤ most_rules }
    ensures { result ≡ first_body + 4 * shape.templates }
{
    template::FIRST_BODY + 4 * usize::from(shape.templates)
}

// Where the ending states begin.
fn third_body(shape: template::Shape) -> usize
    requires { (shape.templates ≤ most_rules) × (shape.schema ≤ most_schema_rules) }
    ensures { result ≡ first_body + 4 * shape.templates + 4 * shape.schema }
{
    second_body(shape) + 4 * usize::from(shape.schema)
}

// A number of 16 bits at a place, its low byte first.
fn put_half(out: &mut [u8], at: usize, n: u16)
    requires { at + 2 ≤ length out.old }
    ensures { out.new ≡ sets out.old at (half_bytes n) }
{
    out[at..at + 2].copy_from_slice(&n.to_le_bytes());
}

// A, N, Q and 0, at the start of the lent bytes.
fn put_numbers(out: &mut [u8], shape: template::Shape)
    requires { 4 ≤ length out.old }
    ensures { out.new ≡ sets out.old 0 (numbers_of shape.names shape.nonterminals shape.states) }
{
    out[..4].copy_from_slice(&[shape.names, shape.nonterminals, shape.states, 0]);
}

// The head and the contents, at the start of the lent bytes.
fn put_head(out: &mut [u8], shape: template::Shape)
    requires first_body_in_bounds { first_body ≤ length out.old }
    requires templates_le_most_rules { (shape.templates ≤ most_rules) × (shape.schema ≤ most_schema_rules) }
    ensures { out.new ≡ head_for shape ++ drop first_body out.old }
{
    put_numbers(out, shape);
    put_half(out, 4, template::FIRST_BODY as u16);
    put_half(out, 6, shape.templates);
    put_half(out, 8, second_body(shape) as u16);
    put_half(out, 10, shape.schema);
    put_half(out, 12, third_body(shape) as u16);
    put_half(out, 14, shape.endings);
}

// The bytes of a body, at the start of a lent part.
// Kept: byte by byte. The library's copy would have the archive for C need `memmove` from outside, which a loop does not.
fn put_body(out: &mut [u8], body: &[u8])
    requires { length body.now ≤ length out.old }
    ensures { out.new ≡ over body.now out.old }
{
    for (i, byte) in body.iter().enumerate() {
        out[i] = *byte;
    }
}

// The file of a shape and three lists, at the start of the lent bytes; those behind it stay.
pub fn lay(out: &mut [u8], shape: template::Shape, rules: &[u8], schema: &[u8], endings: &[u8])
    requires counted { Counted shape rules.now schema.now endings.now }
    requires endings_in_bounds { first_body + length rules.now + length schema.now + length endings.now ≤ length out.old }
    ensures { out.new ≡ over (file_for shape rules.now schema.now endings.now) out.old }
{
    let second = second_body(shape);
    let third = third_body(shape);
    put_head(out, shape);
    put_body(&mut out[template::FIRST_BODY..], rules);
    put_body(&mut out[second..], schema);
    put_body(&mut out[third..], endings);
}
