// Rules with the same right side are walked once, where the first useful one of them stands: for which nonterminals each rule is walked is
// found once a check.
#![tactic(auto)]

ghost use Rattle.std.specs.Prelude.{◌≡◌, true, ◌↔◌, ◌/◌, ◌<◌, ◌≤◌, length};
ghost use Rattle.template.specs.Layout.{most_rules};
ghost use Rattle.template.specs.Grammar.{Gives};
ghost use Rattle.trees.specs.Trees.{Productive, Useful};
ghost use Rattle.useful.specs.Marks.{RulesInRange, MarksAll};
ghost use Rattle.shares.specs.Shares.{SameRight, UsefulRule, Sharing, Shares};

// Have rules h and i the same right side?
fn same_right(rules: &[u8], h: usize, i: usize) -> bool
    requires { (h < length rules.now / 4) × (i < length rules.now / 4) }
    ensures { (result ≡ true) ↔ SameRight rules.now h i }
{
    let a = h * 4;
    let b = i * 4;
    rules[a + 1..a + 4] == rules[b + 1..b + 4]
}

// Does rule i stand in some page's tree? Any other is left out: a nonterminal that derives nothing has no images, so a rule with one on its
// right side would be walked in each round and never make a result.
fn useful_rule(rules: &[u8], productive: u64, useful: u64, i: usize) -> bool
    requires rules_in_range { RulesInRange rules.now }
    requires marks_all { MarksAll productive (Productive (Gives rules.now)) }
    requires marks_all_2 { MarksAll useful (Useful (Gives rules.now)) }
    requires i_in_bounds { i < length rules.now / 4 }
    ensures { (result ≡ true) ↔ UsefulRule rules.now i }
{
    useful::marked(useful, numbers::field(rules, i, 0)) & useful::all_marked(rules, i, productive)
}

// Is rule h useful, with the right side of rule i? Most rules have another one, which three bytes tell.
fn is_sharer(rules: &[u8], productive: u64, useful: u64, h: usize, i: usize) -> bool
    requires rules_in_range { RulesInRange rules.now }
    requires marks_all { MarksAll productive (Productive (Gives rules.now)) }
    requires marks_all_2 { MarksAll useful (Useful (Gives rules.now)) }
    requires h_in_bounds { (h < length rules.now / 4) × (i < length rules.now / 4) }
    ensures { (result ≡ true) ↔ (UsefulRule rules.now h × SameRight rules.now h i) }
{
    if !same_right(rules, h, i) {
        return false;
    }
    useful_rule(rules, productive, useful, h)
}

// The useful nonterminals for which rule i is walked: the left sides of all rules with its right side, where it is the first useful
// one of them.
fn sharers(rules: &[u8], productive: u64, useful: u64, i: usize) -> u64
    requires rules_in_range { RulesInRange rules.now }
    requires marks_all { MarksAll productive (Productive (Gives rules.now)) }
    requires marks_all_2 { MarksAll useful (Useful (Gives rules.now)) }
    requires i_in_bounds { i < length rules.now / 4 }
    ensures { Sharing rules.now i result }
{
    if !useful_rule(rules, productive, useful, i) {
        return 0;
    }
    let mut marks = 0u64;
    for h in 0..rules.len() / 4 {
        if is_sharer(rules, productive, useful, h, i) {
            if h < i {
                return 0;
            }
            marks = useful::mark(marks, numbers::field(rules, h, 0));
        }
    }
    marks
}

// For which nonterminals each rule is walked, into a lent table.
pub fn share(rules: &[u8], productive: u64, useful: u64, shares: &mut [u64; template::RULES])
    requires rules_in_range { RulesInRange rules.now }
    requires marks_all { MarksAll productive (Productive (Gives rules.now)) }
    requires marks_all_2 { MarksAll useful (Useful (Gives rules.now)) }
    requires rules_len_bound { length rules.now / 4 ≤ most_rules }
    requires shares_len { length shares.old ≡ most_rules }
    ensures { Shares rules.now shares.new }
{
    for i in 0..rules.len() / 4 {
        shares[i] = sharers(rules, productive, useful, i);
    }
}
