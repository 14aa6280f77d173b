// What C and Rust link: the calls of crate ujthanor under their C names, with the same promises. Nothing is asked of what is lent.
#![tactic(auto)]

ghost use Rattle.ujthanor.specs.Calls.{CheckCalled, PageCalled, FragmentCalled, JoinCalled, DepthCalled, SplitCalled};

// Checks a template set: the answer, its number and the images; the worktable as `rounds::check` leaves it.
#[unsafe(no_mangle)]
pub extern "C" fn ujthanor_check(
    file: &[u8],
    table: &mut [u64],
    budget: usize,
    number: &mut u64,
    images: &mut u64,
) -> u32
    ensures { CheckCalled file.now table.old budget result number.new images.new table.new }
{
    ujthanor::ujthanor_check(file, table, budget, number, images)
}

// Reads a page: the answer and its number.
#[unsafe(no_mangle)]
pub extern "C" fn ujthanor_page(file: &[u8], bytes: &[u8], number: &mut u64) -> u32
    ensures { PageCalled file.now bytes.now result number.new }
{
    ujthanor::ujthanor_page(file, bytes, number)
}

// Summarises a fragment: the answer and its number; the summary in the row. A row that is too short is refused first, with 17.
#[unsafe(no_mangle)]
pub extern "C" fn ujthanor_fragment(
    file: &[u8],
    bytes: &[u8],
    row: &mut [u64],
    number: &mut u64,
) -> u32
    ensures { FragmentCalled file.now bytes.now row.old result number.new row.new }
{
    ujthanor::ujthanor_fragment(file, bytes, row, number)
}

// Joins two summaries: the answer and its number; the joined summary in the row. A row that is too short is refused first, with 17.
#[unsafe(no_mangle)]
pub extern "C" fn ujthanor_join(
    file: &[u8],
    left: &[u64],
    right: &[u64],
    row: &mut [u64],
    number: &mut u64,
) -> u32
    ensures { JoinCalled file.now left.now right.now row.old result number.new row.new }
{
    ujthanor::ujthanor_join(file, left, right, row, number)
}

// The net depth of a summary: the answer, its number and the depth.
#[unsafe(no_mangle)]
pub extern "C" fn ujthanor_net_depth(
    file: &[u8],
    row: &[u64],
    number: &mut u64,
    depth: &mut i32,
) -> u32
    ensures { DepthCalled file.now row.now result number.new depth.new }
{
    ujthanor::ujthanor_net_depth(file, row, number, depth)
}

// Splits the rules of a file of long rules: the answer and its number; the ordinary file in the output.
#[unsafe(no_mangle)]
pub extern "C" fn ujthanor_split(file: &[u8], out: &mut [u8], number: &mut u64) -> u32
    ensures { SplitCalled file.now out.old result number.new out.new }
{
    ujthanor::ujthanor_split(file, out, number)
}
