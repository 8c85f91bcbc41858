// The checker: what is due stands on a stack of frames, and the words are held against it one by one.
ghost use Rattle.std.specs.Prelude.{◌≡◌, ℕ, ◌+◌, ◌<◌, ◌≤◌, List, [], ◌∷◌, ◌++◌, map, length, Ok, Err, MatchResult};
ghost use Rattle.words.specs.declared.word.Word.{Word as WordOf};
ghost use Rattle.words.specs.Words.{read_word};
ghost use Rattle.grammar.specs.Format.{parts as parts_of};
ghost use Rattle.bounded.specs.Stack.{held, room};
ghost use Rattle.checker.specs.Check.{check as checked, check_script};
ghost use Rattle.checker.specs.Laws.{Laws};
ghost use Rattle.checker.specs.Held.{part_frame, dues, onto, grown, opened, looped, Sound, Left, frames_of};

use crate::frame::{Frame, Labels, START, Spot, is_loop};
use crate::rules::judge;
use bounded::stack::Stack;
use faults::tree::{ReaderFault, TreeFault};
use grammar::Part;
use grammar::table::parts;
use words::word::{Kind, Word};

// Room for the frames, and for the labels of the loops around, that the depth limit allows.
const FRAME_ROOM: usize = 512;

const ITERATION_ROOM: usize = 102;

// More than the 102 open labels that the limit allows: a smaller array is placed where the loop over it is compiled to
// shorter instructions that lie badly in memory, and scripts of many labels load in 1.5 times the time.
const LABEL_ROOM: usize = 512;

// What is still due, the next on top.
#[derive(Drop)]
struct Due<'a> {
    frames: Stack<'a, Frame>,
    ghost room: { room frames ≡ 512 },
}

impl Due<'_> {
    // One more run of parts due, unless no times.
    fn need(&mut self, frame: Frame)
        requires { length (held self.old.frames) < 512 }
        ensures frames { frames_of self.new.frames ≡ onto frame (frames_of self.old.frames) }
        ensures len { length (held self.new.frames) ≤ length (held self.old.frames) + 1 }
    {
        if frame.times != 0 {
            self.frames.push(frame).unwrap();
        }
    }

    // One run of parts due, unless no times. Asked before the frame is made, since most of a word's four runs are empty.
    fn need_part(&mut self, part: Part, spot: Spot)
        requires room { length (held self.old.frames) < 512 }
        requires spot { spot.depth ≤ 101 }
        ensures frames { frames_of self.new.frames ≡ onto (part_frame part spot) (frames_of self.old.frames) }
        ensures len { length (held self.new.frames) ≤ length (held self.old.frames) + 1 }
    {
        if part.times != 0 {
            self.need(Frame::of(part, spot));
        }
    }

    // The parts of a word come before what is still due.
    fn grow(&mut self, word: Word, spot: Spot)
        requires room { length (held self.old.frames) + 4 ≤ 512 }
        requires spot { spot.depth ≤ 101 }
        ensures { frames_of self.new.frames ≡ grown (parts_of word) spot (frames_of self.old.frames) }
    {
        let p = parts(word);
        self.need_part(p.fourth, spot);
        self.need_part(p.third, spot);
        self.need_part(p.second, spot);
        self.need_part(p.first, spot);
    }
}

// Each of these on top, one after another.
fn put_all(stack: &mut Stack<u32>, values: &[u32])
    requires { length (held stack.old) + length values.now ≤ room stack.old }
    ensures held { held stack.new ≡ held stack.old ++ values.now }
    ensures room { room stack.new ≡ room stack.old }
{
    for value in values {
        stack.push(*value).unwrap();
    }
}

impl Labels<'_> {
    // A Label is open in its body, and the labels set on a loop are labels of a loop in it.
    fn enter(&mut self, frame: Frame, word: Word)
        requires spot { (frame.spot.iterations + frame.spot.set ≤ frame.spot.labels) × (frame.spot.labels ≤ 101) }
        requires held { (length (held self.old.around) ≡ frame.spot.labels) × (length (held self.old.iterations) ≡ frame.spot.iterations) }
        ensures around { held self.new.around ≡ opened word (held self.old.around) }
        ensures iterations { held self.new.iterations ≡ looped frame word (held self.old.around) (held self.old.iterations) }
    {
        if word.kind == Kind::Label {
            self.around.push(word.number).unwrap();
        } else if is_loop(word) {
            let open = self.around.as_slice();
            put_all(&mut self.iterations, &open[open.len() - frame.spot.set..]);
        }
    }
}

// Holds the next part due against the word at a place.
fn step(
    count: u32,
    word: Word,
    at: usize,
    due: &mut Due,
    labels: &mut Labels,
) -> Result<(), TreeFault>
    requires { Sound (length (held labels.old.around)) (length (held labels.old.iterations)) (frames_of due.old.frames) }
    ensures { (ws : List WordOf) → MatchResult result
        (λ _. Left count (frames_of due.new.frames) (held labels.new.around) (held labels.new.iterations) ws (at + 1)
        (checked count (dues (held labels.old.around) (held labels.old.iterations) (frames_of due.old.frames)) (word ∷ ws) at))
        (λ f. checked count (dues (held labels.old.around) (held labels.old.iterations) (frames_of due.old.frames)) (word ∷ ws) at ≡ Err f) }
{
    let Some(frame) = due.frames.pop() else {
        return Err(ReaderFault::WordsLeft(at).into());
    };
    labels.around.truncate(frame.spot.labels);
    labels.iterations.truncate(frame.spot.iterations);
    judge(count, labels, frame, word, at)?;
    due.need(frame.rest(word));
    due.grow(word, frame.spot.within(word));
    labels.enter(frame, word);
    Ok(())
}

// Holds the words against one Body, and says whether they end there.
fn run(count: u32, words: &[u32]) -> Result<(), TreeFault>
    ensures { result ≡ check_script count (map read_word words.now) }
{
    let mut frame_space = [START; FRAME_ROOM];
    let mut label_space = [0; LABEL_ROOM];
    let mut iteration_space = [0; ITERATION_ROOM];
    let mut due = Due {
        frames: Stack::new(&mut frame_space),
    };
    let mut labels = Labels {
        around: Stack::new(&mut label_space),
        iterations: Stack::new(&mut iteration_space),
    };
    due.need(START);
    for (at, word) in words.iter().enumerate() {
        step(count, Word::from(*word), at, &mut due, &mut labels)?;
    }
    match due.frames.pop() {
        Some(_) => Err(ReaderFault::WordDue(words.len()).into()),
        None => Ok(()),
    }
}

// Whether the words are a script for a host of so many expressions; where they are not, what is wrong with the
// first word that breaks a rule.
#[tactic(auto, using(crate::proofs::Lawful::laws))]
pub fn check(count: u32, words: &[u32]) -> Result<(), TreeFault>
    ensures verdict { result ≡ check_script count (map read_word words.now) }
    ensures laws { Laws count words.now }
{
    run(count, words)
}
