// Load: checks a script and begins its record.
ghost use Rattle.std.specs.Prelude.{◌≡◌, length, replicate, is_ok, if◌then◌else◌};
ghost use Rattle.calls.specs.Load.{lengths_refused, load_answer};
ghost use Rattle.calls.specs.LoadLaws.{LoadLaws};

use crate::record::Record;
use checker::script::check;
use faults::call::CallFault;
use host::Host;
use scan::weigh;
use words::word::MAX_WORDS;

// How many working words there must be for each word used, and how many labels to drop there may be.
pub const WORKING_SHARE: usize = 4;

const MOST_LABELS: usize = 16;

// Refusals 1 to 4, in that order.
fn check_lengths(space: usize, used: usize, working: usize, labels: usize) -> Result<(), CallFault>
    ensures { result ≡ lengths_refused space used working labels }
{
    if used == 0 || used > space {
        return Err(CallFault::Used(used));
    }
    if used > MAX_WORDS {
        return Err(CallFault::TooLong(used));
    }
    if working < WORKING_SHARE * used {
        return Err(CallFault::WorkingWords(working));
    }
    if labels > MOST_LABELS {
        return Err(CallFault::Labels(labels));
    }
    Ok(())
}

// Checks a script and answers its new record; the working words are 0 afterwards. A refusal changes nothing.
#[tactic(auto, using(crate::proofs::Loads::load_laws))]
pub fn load<H: Host>(
    host: &H,
    space: &mut [u32],
    used: usize,
    working: &mut [u32],
    labels: &[u32],
) -> Result<Record, CallFault>
    ensures answer { result ≡ load_answer (H.Host.model host.now).count space.old used (length working.old) (length labels.now) }
    ensures space { space.new ≡ space.old }
    ensures working { working.new ≡ (if is_ok result then replicate (length working.old) 0 else working.old) }
    ensures laws { LoadLaws (H.Host.model host.now).count space.old used (length working.old) (length labels.now) }
{
    check_lengths(space.len(), used, working.len(), labels.len())?;
    let words = &space[..used];
    check(host.count(), words)?;
    let weight = weigh(words);
    working.fill(0);
    Ok(Record {
        used: used as u32,
        weight,
        changes: 0,
    })
}
