// Which nonterminals are useful: those that derive some tag string, and among them those that the start reaches. Marks are the bits of a
// number, for there are at most 64 nonterminals. Passes over the rules go on until one adds no mark.
#![tactic(auto)]

ghost use Rattle.std.specs.Prelude.{◌≡◌, true, ◌↔◌, ℕ, ◌-◌, ◌/◌, ◌<◌, ◌≤◌, length, Some, None, IfSome};
ghost use Rattle.numbers.specs.Bits.{bit};
ghost use Rattle.template.specs.Grammar.{right_side, Gives};
ghost use Rattle.trees.specs.Trees.{Reached};
ghost use Rattle.useful.specs.Marks.{at_slot, slot_marked, with_mark, with_slot, RulesInRange, AllMarked, MarksAll, Passed, StepsTo, Saturated};
ghost use Rattle.trees.specs.Trees.{Productive};
ghost use Rattle.useful.specs.Marks.{KeptUp, KeptDown, PassedUp, PassedDown};

// Is the nonterminal marked?
pub fn marked(marks: u64, x: usize) -> bool
    requires { x < 64 }
    ensures { result ≡ bit marks x }
{
    (marks >> x) % 2 == 1
}

// The marks with one more.
pub fn mark(marks: u64, x: usize) -> u64
    requires { x < 64 }
    ensures { result ≡ with_mark marks x }
{
    marks | (1u64 << x)
}

// The nonterminal at a place of a right side, if one stands there.
fn nonterminal_at(used: bool, byte: usize) -> Option<usize>
    ensures value { result ≡ at_slot used byte (Some (byte - 64)) None }
    ensures below { IfSome result (λ x. x < 64) }
{
    if used && 64 <= byte && byte < 128 {
        Some(byte - 64)
    } else {
        None
    }
}

// Is the symbol at a place no nonterminal, or a marked one?
fn symbol_marked(used: bool, byte: usize, marks: u64) -> bool
    ensures { result ≡ slot_marked used byte marks }
{
    match nonterminal_at(used, byte) {
        Some(x) => marked(marks, x),
        None => true,
    }
}

// Are all nonterminals of rule i's right side marked?
pub fn all_marked(rules: &[u8], i: usize, marks: u64) -> bool
    requires rules_in_range { RulesInRange rules.now }
    requires i_in_bounds { i < length rules.now / 4 }
    ensures { (result ≡ true) ↔ AllMarked (bit marks) (right_side rules.now i) }
{
    let n = numbers::field(rules, i, 1);
    symbol_marked(0 < n, numbers::field(rules, i, 2), marks)
        & symbol_marked(1 < n, numbers::field(rules, i, 3), marks)
}

// The marks with the left side of rule i, where its right side is all marked.
fn step_up(rules: &[u8], i: usize, marks: u64) -> u64
    requires rules_in_range { RulesInRange rules.now }
    requires i_in_bounds { i < length rules.now / 4 }
    ensures { Passed (Productive (Gives rules.now)) (KeptUp rules.now i) marks result }
{
    if all_marked(rules, i, marks) {
        return mark(marks, numbers::field(rules, i, 0));
    }
    marks
}

// A pass: a step at each rule, one after the other.
fn pass<F: Fn(usize, u64) -> u64>(rules: &[u8], step: F, marks: u64) -> u64
    requires { (i m : ℕ) → i < length rules.now / 4 → F.pre step i m }
    ensures { StepsTo (F.post step) (length rules.now / 4) marks result }
{
    let mut m = marks;
    for i in 0..rules.len() / 4 {
        m = step(i, m);
    }
    m
}

// Passes go on until one adds no mark.
fn saturate<F: Fn(u64) -> u64>(pass: F, marks: u64) -> u64
    requires callable { F.IsAlwaysCallable pass }
    requires grows { (m next : ℕ) → F.post pass m next → m ≤ next }
    ensures { Saturated (F.post pass) marks result }
{
    let mut m = marks;
    loop {
        let next = pass(m);
        if next == m {
            return m;
        }
        m = next;
    }
}

// One pass: the left side of each rule whose right side is all marked.
fn pass_up(rules: &[u8], marks: u64) -> u64
    requires { RulesInRange rules.now }
    ensures { PassedUp rules.now marks result }
{
    pass(rules, |i, m| step_up(rules, i, m), marks)
}

// The nonterminals that derive some tag string.
pub fn productive(rules: &[u8]) -> u64
    requires { RulesInRange rules.now }
    ensures { MarksAll result (Productive (Gives rules.now)) }
{
    saturate(|m| pass_up(rules, m), 0)
}

// The marks with the nonterminal of a symbol, where it is one.
fn mark_symbol(used: bool, byte: usize, marks: u64) -> u64
    ensures { result ≡ with_slot used byte marks }
{
    match nonterminal_at(used, byte) {
        Some(x) => mark(marks, x),
        None => marks,
    }
}

// The marks with the nonterminals of rule i's right side, where its left side is marked and its right side is productive.
fn step_down(rules: &[u8], productive: u64, i: usize, marks: u64) -> u64
    requires rules_in_range { RulesInRange rules.now }
    requires marks_all { MarksAll productive (Productive (Gives rules.now)) }
    requires i_in_bounds { i < length rules.now / 4 }
    ensures { Passed (Reached (Gives rules.now)) (KeptDown rules.now productive i) marks result }
{
    if marked(marks, numbers::field(rules, i, 0)) {
        if all_marked(rules, i, productive) {
            let n = numbers::field(rules, i, 1);
            let m = mark_symbol(0 < n, numbers::field(rules, i, 2), marks);
            return mark_symbol(1 < n, numbers::field(rules, i, 3), m);
        }
    }
    marks
}

// One pass: the nonterminals of each right side that is productive, of a marked left side.
fn pass_down(rules: &[u8], productive: u64, marks: u64) -> u64
    requires rules_in_range { RulesInRange rules.now }
    requires marks_all { MarksAll productive (Productive (Gives rules.now)) }
    ensures { PassedDown rules.now productive marks result }
{
    pass(rules, |i, m| step_down(rules, productive, i, m), marks)
}

// The nonterminals that the start reaches by rules in which each nonterminal derives some string.
pub fn reached(rules: &[u8], productive: u64) -> u64
    requires rules_in_range { RulesInRange rules.now }
    requires marks_all { MarksAll productive (Productive (Gives rules.now)) }
    ensures { MarksAll result (Reached (Gives rules.now)) }
{
    saturate(|m| pass_down(rules, productive, m), 1)
}
