// The fields of rules of four bytes. The crate's theory of bits and of tests is in specs/ and proofs/.
#![tactic(auto)]

ghost use Rattle.std.specs.Prelude.{◌≡◌, ◌/◌, ◌<◌, length};
ghost use Rattle.numbers.specs.Fields.{field};

// Field j of rule i, four bytes to a rule.
#[tactic(auto, unfolding(crate::specs::Fields::field))]
pub fn field(rules: &[u8], i: usize, j: usize) -> usize
    requires i_in_bounds { i < length rules.now / 4 }
    requires j_bound { j < 4 }
    ensures { (result ≡ field rules.now i j) × (result < 256) }
{
    usize::from(rules[i * 4 + j])
}
