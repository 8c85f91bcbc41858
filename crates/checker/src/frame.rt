// What the checker keeps of unfinished statements.
ghost use Rattle.std.specs.Prelude.{◌≡◌};
ghost use Rattle.checker.specs.Check.{is_loop as is_loop_kind};
ghost use Rattle.bounded.specs.Stack.{room};

use bounded::stack::Stack;
use grammar::{Part, Surroundings, What};
use words::word::{Kind, Word};

// What is around a part: how many statements, loops and Switches, and how many of the labels kept are open here.
#[derive(Clone, Copy)]
pub struct Spot {
    pub depth: u32,
    pub looping: bool,
    pub breakable: bool,
    // open labels
    pub labels: usize,
    // how many of these, the innermost, are set on the statement itself
    pub set: usize,
    // labels of the loops around
    pub iterations: usize,
}

// So many parts alike that are still due.
#[derive(Clone, Copy)]
pub struct Frame {
    pub what: What,
    pub times: u32,
    pub spot: Spot,
}

// The labels open where a word stands, and those set on the loops around.
#[derive(Drop)]
pub(crate) struct Labels<'a> {
    pub(crate) around: Stack<'a, u32>,
    pub(crate) iterations: Stack<'a, u32>,
    ghost around_room: { room around ≡ 512 },
    ghost iterations_room: { room iterations ≡ 102 },
}

pub(crate) fn is_loop(word: Word) -> bool
    ensures { result ≡ is_loop_kind word.kind }
{
    word.kind.is_between(Kind::For, Kind::Do)
}

// A script is one Body, with nothing around it.
pub(crate) const START: Frame = Frame {
    what: What::Body,
    times: 1,
    spot: Spot {
        depth: 0,
        looping: false,
        breakable: false,
        labels: 0,
        set: 0,
        iterations: 0,
    },
};

impl Spot {
    ghost use Rattle.std.specs.Prelude.{◌≡◌, ◌+◌, ◌≤◌};
    ghost use Rattle.checker.specs.Held.{within_spot};

    // The labels around the parts of a word that stands here.
    pub(crate) fn within(self, word: Word) -> Spot
        requires { (self.iterations + self.set ≤ self.labels) × (self.labels ≤ 101) }
        ensures { result ≡ within_spot word self }
    {
        if word.kind == Kind::Label {
            Spot {
                labels: self.labels + 1,
                set: self.set + 1,
                ..self
            }
        } else if is_loop(word) {
            Spot {
                set: 0,
                iterations: self.iterations + self.set,
                ..self
            }
        } else {
            Spot { set: 0, ..self }
        }
    }
}

impl Frame {
    ghost use Rattle.std.specs.Prelude.{◌≡◌, ◌<◌, ◌≤◌};
    ghost use Rattle.checker.specs.Held.{part_frame, rest_frame};

    // The parts of a word, with this around the word.
    pub(crate) fn of(part: Part, spot: Spot) -> Frame
        requires { spot.depth ≤ 101 }
        ensures { result ≡ part_frame part spot }
    {
        let nested = Spot {
            depth: spot.depth + 1,
            ..spot
        };
        Frame {
            what: part.what,
            times: part.times,
            spot: match part.surroundings {
                Surroundings::Same => spot,
                Surroundings::Nested | Surroundings::LabelBody => nested,
                Surroundings::LoopBody => Spot {
                    looping: true,
                    breakable: true,
                    ..nested
                },
                Surroundings::SwitchCase => Spot {
                    breakable: true,
                    ..nested
                },
            },
        }
    }

    // What is left of these parts after a word.
    pub(crate) fn rest(self, word: Word) -> Frame
        requires { 0 < self.times }
        ensures { result ≡ rest_frame self word }
    {
        Frame {
            what: self.what.after(word.kind),
            times: self.times - 1,
            ..self
        }
    }
}
