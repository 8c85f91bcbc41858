// The rules of one word.
ghost use Rattle.std.specs.Prelude.{◌≡◌};
ghost use Rattle.bounded.specs.Stack.{held};
ghost use Rattle.checker.specs.Check.{jumps_well, is_known, judge as judge_of};
ghost use Rattle.checker.specs.Held.{around_in, due_in};

use crate::frame::{Frame, Labels, Spot};
use faults::tree::TreeFault;
use grammar::allows;
use slices::contains;
use words::word::{Kind, Word};

// Statements and cases have at most so many statements around them.
const DEPTH_LIMIT: u32 = 100;

// The jump and label rules.
fn has_target(labels: &Labels, spot: Spot, word: Word) -> bool
    ensures { result ≡ jumps_well word.kind word.number (around_in (held labels.now.around) (held labels.now.iterations) spot) }
{
    match word.kind {
        Kind::Label => !contains(labels.around.as_slice(), word.number),
        Kind::Break => spot.breakable,
        Kind::BreakTo => contains(labels.around.as_slice(), word.number),
        Kind::Continue => spot.looping,
        Kind::ContinueTo => contains(labels.iterations.as_slice(), word.number),
        _ => true,
    }
}

fn is_expression_known(count: u32, word: Word) -> bool
    ensures { result ≡ is_known count word.kind word.number }
{
    word.kind != Kind::Expression || word.number < count
}

// Holds a word against what is due: the first rule that it breaks.
pub(crate) fn judge(
    count: u32,
    labels: &Labels,
    frame: Frame,
    word: Word,
    at: usize,
) -> Result<(), TreeFault>
    ensures { result ≡ judge_of count (due_in (held labels.now.around) (held labels.now.iterations) frame) word at }
{
    if !(frame.what.admits(word.kind) && allows(word.kind, word.number)) {
        return Err(TreeFault::Format(at));
    }
    if frame.what.has_depth() && frame.spot.depth > DEPTH_LIMIT {
        return Err(TreeFault::Depth(at));
    }
    if !is_expression_known(count, word) {
        return Err(TreeFault::Expression(at));
    }
    if !has_target(labels, frame.spot, word) {
        return Err(TreeFault::Jump(at));
    }
    Ok(())
}
