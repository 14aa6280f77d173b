// What C and Rust call, by the exports of crate ujthanor_c: numbers and slices only. Each call hands on to the crate that makes its promise, and
// lays the reply out in numbers (Rules, section 9). A summary is a row in the worktable's layout, its nonterminal part 0 (section 10). Nothing
// is asked of what is lent.
#![tactic(auto)]

ghost use Rattle.std.specs.Prelude.{◌≡◌, ◌≤◌, length};
ghost use Rattle.pieces.specs.Pieces.{most_tags, AllCounted};
ghost use Rattle.form.specs.Held.{tag_count};
ghost use Rattle.worktable.specs.Packed.{row_width};
ghost use Rattle.summary.specs.Packing.{zeros};
ghost use Rattle.ujthanor.specs.LentRows.{written, no_summary, StandsFor};
ghost use Rattle.ujthanor.specs.Calls.{CheckCalled, PageCalled, FragmentCalled, JoinCalled, DepthCalled, SplitCalled};

// The answer for a row that is too short for a summary.
const SHORT_ROW: u32 = 17;

// Checks a template set: the answer, its number and the images; the worktable as `rounds::check` leaves it.
pub fn ujthanor_check(
    file: &[u8],
    table: &mut [u64],
    budget: usize,
    number: &mut u64,
    images: &mut u64,
) -> u32
    ensures { CheckCalled file.now table.old budget result number.new images.new table.new }
{
    let r = rounds::check(file, table, budget);
    let Ok(passed) = r else {
        *number = rounds::number(r);
        *images = 0;
        return rounds::answer(r);
    };
    *number = passed.rounds as u64;
    *images = passed.images as u64;
    rounds::answer(r)
}

// Reads a page: the answer and its number.
pub fn ujthanor_page(file: &[u8], bytes: &[u8], number: &mut u64) -> u32
    ensures { PageCalled file.now bytes.now result number.new }
{
    let r = page::read(file, bytes);
    *number = page::number(r);
    page::answer(r)
}

// Writes the row of a summary over the first entries.
fn put_summary(row: &mut [u64], s: form::Summary)
    requires row_width_in_bounds { row_width ≤ length row.old }
    requires counts_bound { (tag_count s.counts ≤ most_tags) × AllCounted s.values }
    ensures { row.new ≡ written row.old s }
{
    let c = s.counts;
    let names = s.names;
    let values = s.values;
    let packed = worktable::pack(0, c, &names, &values);
    rows::add(row, 0, &packed);
}

// Writes the row of a refusal's summary over the first entries: all zeros.
fn put_zeros(row: &mut [u64])
    requires { row_width ≤ length row.old }
    ensures { row.new ≡ written row.old zeros }
{
    rows::clear(row, 0, worktable::ROW);
}

// Summarises a fragment: the answer and its number; the summary in the row. A row that is too short is refused first, with 17.
pub fn ujthanor_fragment(file: &[u8], bytes: &[u8], row: &mut [u64], number: &mut u64) -> u32
    ensures { FragmentCalled file.now bytes.now row.old result number.new row.new }
{
    if row.len() < worktable::ROW {
        *number = 0;
        return SHORT_ROW;
    }
    let r = summary::fragment(file, bytes);
    let a = r.answer;
    *number = summary::fragment_number(a);
    let Ok(()) = a else {
        put_zeros(row);
        return summary::fragment_answer(a);
    };
    put_summary(row, r.summary);
    summary::fragment_answer(a)
}

// A struct of more tags than a summary may have, which is no summary under any file.
fn no_summary() -> form::Summary
    ensures { result ≡ no_summary }
{
    form::Summary {
        counts: form::counted(pieces::TAGS + 1, 0),
        names: [0u8; pieces::TAGS],
        values: [0u64; pieces::PIECES],
    }
}

// The struct that a lent row stands for.
fn lent(row: &[u64]) -> form::Summary
    ensures { StandsFor row.now result }
{
    if row.len() != worktable::ROW {
        return no_summary();
    }
    if worktable::nonterminal(row) != 0 {
        return no_summary();
    }
    if worktable::above(row) != 0 {
        return no_summary();
    }
    let mut names = [0u8; pieces::TAGS];
    let mut values = [0u64; pieces::PIECES];
    let c = worktable::unpack(row, &mut names, &mut values);
    form::Summary {
        counts: c,
        names: names,
        values: values,
    }
}

// Joins two summaries: the answer and its number; the joined summary in the row. A row that is too short is refused first, with 17.
pub fn ujthanor_join(
    file: &[u8],
    left: &[u64],
    right: &[u64],
    row: &mut [u64],
    number: &mut u64,
) -> u32
    ensures { JoinCalled file.now left.now right.now row.old result number.new row.new }
{
    if row.len() < worktable::ROW {
        *number = 0;
        return SHORT_ROW;
    }
    let first = lent(left);
    let second = lent(right);
    let j = summary::join(file, first, second);
    let a = j.answer;
    *number = summary::join_number(a);
    let Ok(()) = a else {
        put_zeros(row);
        return summary::join_answer(a);
    };
    put_summary(row, j.summary);
    summary::join_answer(a)
}

// The net depth of a summary: the answer, its number and the depth.
pub fn ujthanor_net_depth(file: &[u8], row: &[u64], number: &mut u64, depth: &mut i32) -> u32
    ensures { DepthCalled file.now row.now result number.new depth.new }
{
    let s = lent(row);
    let d = summary::net_depth(file, s);
    *number = summary::depth_number(d);
    let Ok(z) = d else {
        *depth = 0;
        return summary::depth_answer(d);
    };
    *depth = z;
    summary::depth_answer(d)
}

// Splits the rules of a file of long rules: the answer and its number; the ordinary file in the output.
pub fn ujthanor_split(file: &[u8], out: &mut [u8], number: &mut u64) -> u32
    ensures { SplitCalled file.now out.old result number.new out.new }
{
    let r = long::split(file, out);
    *number = long::number(r);
    long::answer(r)
}
