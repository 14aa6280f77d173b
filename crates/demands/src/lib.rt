// Each public call with the demands as its contract; the body is the call. None has a `requires`, so each ends and answers on any input.
// First the calls in Rattle, then those of crate ujthanor, which ujthanor_c exports to C and Rust with the same promises.
#![tactic(auto)]

ghost use Rattle.summary.specs.Answers.{fragment_answer, fragment_number, join_answer, join_number, depth_answer, depth_number, net_depth};
ghost use Rattle.page.specs.Pages as page;
ghost use Rattle.rounds.specs.Answers as check;
ghost use Rattle.long.specs.Splits as long;
ghost use Rattle.demands.specs.Calls.{CheckMeets, PageMeets, FragmentMeets, JoinMeets, DepthMeets, SplitMeets};
ghost use Rattle.demands.specs.Calls.{FragmentFromC, JoinFromC, DepthFromC};

pub fn check(file: &[u8], table: &mut [u64], budget: usize) -> rounds::CheckReply
    ensures { CheckMeets file.now table.old budget (check.answer result) (check.number result) (check.images result) table.new }
{
    rounds::check(file, table, budget)
}

pub fn page(file: &[u8], bytes: &[u8]) -> Result<(), page::PageRefusal>
    ensures { PageMeets file.now bytes.now (page.answer result) (page.number result) }
{
    page::read(file, bytes)
}

pub fn fragment(file: &[u8], bytes: &[u8]) -> summary::FragmentReply
    ensures { FragmentMeets file.now bytes.now (fragment_answer result.answer) (fragment_number result.answer) result.summary }
{
    summary::fragment(file, bytes)
}

pub fn join(file: &[u8], left: form::Summary, right: form::Summary) -> summary::JoinReply
    ensures { JoinMeets file.now left right (join_answer result.answer) (join_number result.answer) result.summary }
{
    summary::join(file, left, right)
}

pub fn net_depth(file: &[u8], s: form::Summary) -> Result<i32, summary::DepthRefusal>
    ensures { DepthMeets file.now s (depth_answer result) (depth_number result) (net_depth result) }
{
    summary::net_depth(file, s)
}

pub fn split(file: &[u8], out: &mut [u8]) -> Result<usize, long::SplitRefusal>
    ensures { SplitMeets file.now out.old (long.answer result) (long.number result) out.new }
{
    long::split(file, out)
}

pub fn check_from_c(
    file: &[u8],
    table: &mut [u64],
    budget: usize,
    number: &mut u64,
    images: &mut u64,
) -> u32
    ensures { CheckMeets file.now table.old budget result number.new images.new table.new }
{
    ujthanor::ujthanor_check(file, table, budget, number, images)
}

pub fn page_from_c(file: &[u8], bytes: &[u8], number: &mut u64) -> u32
    ensures { PageMeets file.now bytes.now result number.new }
{
    ujthanor::ujthanor_page(file, bytes, number)
}

pub fn fragment_from_c(file: &[u8], bytes: &[u8], row: &mut [u64], number: &mut u64) -> u32
    ensures { FragmentFromC file.now bytes.now row.old result number.new row.new }
{
    ujthanor::ujthanor_fragment(file, bytes, row, number)
}

pub fn join_from_c(
    file: &[u8],
    left: &[u64],
    right: &[u64],
    row: &mut [u64],
    number: &mut u64,
) -> u32
    ensures { JoinFromC file.now left.now right.now row.old result number.new row.new }
{
    ujthanor::ujthanor_join(file, left, right, row, number)
}

pub fn net_depth_from_c(file: &[u8], row: &[u64], number: &mut u64, depth: &mut i32) -> u32
    ensures { DepthFromC file.now row.now result number.new depth.new }
{
    ujthanor::ujthanor_net_depth(file, row, number, depth)
}

pub fn split_from_c(file: &[u8], out: &mut [u8], number: &mut u64) -> u32
    ensures { SplitMeets file.now out.old result number.new out.new }
{
    ujthanor::ujthanor_split(file, out, number)
}
