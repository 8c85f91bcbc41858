// The parts of each word, by its kind and number.
ghost use Rattle.std.specs.Prelude.{◌≡◌, ◌+◌, [], ◌∷◌};
ghost use Rattle.grammar.specs.Format.{part, parts_in, for_parts_lem, try_parts_lem, parts, part_count};
ghost use Rattle.grammar.specs.declared.Surroundings.TheVariants.{Same, Nested};

use crate::*;
use words::word::*;

const NO_PART: Part = Part {
    what: What::Expression,
    times: 0,
    surroundings: Surroundings::Same,
};

impl Part {
    fn new(what: What, times: u32, surroundings: Surroundings) -> Part
        ensures { result ≡ part what times surroundings }
    {
        Part {
            what,
            times,
            surroundings,
        }
    }

    fn same(what: What, times: u32) -> Part
        ensures { result ≡ part what times Same }
    {
        Part::new(what, times, Surroundings::Same)
    }

    fn nested(what: What, times: u32) -> Part
        ensures { result ≡ part what times Nested }
    {
        Part::new(what, times, Surroundings::Nested)
    }
}

impl Parts {
    // At most two parts. An If writes its third over what this leaves empty; a For and a Try write all four. One function
    // could take a list of any length, but a list is written to memory and read back, and takes two to four times as long.
    fn of(first: Part, second: Part) -> Parts
        ensures { result ≡ parts_in (first ∷ second ∷ []) }
    {
        Parts {
            first,
            second,
            third: NO_PART,
            fourth: NO_PART,
        }
    }
}

// The parts of a For of this number.
fn for_parts(n: u32) -> Parts
    ensures { result ≡ for_parts_lem n }
{
    Parts {
        first: Part::same(What::Expression, has(FOR_EXPRESSION, n)),
        second: Part::same(What::ForDeclaration, has(FOR_DECLARATION, n)),
        third: Part::same(What::Expression, has(FOR_TEST, n) + has(FOR_UPDATE, n)),
        fourth: Part::new(What::SingleStatement, 1, Surroundings::LoopBody),
    }
}

// The parts of a Try of this number.
fn try_parts(n: u32) -> Parts
    ensures { result ≡ try_parts_lem n }
{
    Parts {
        first: Part::nested(What::Body, 1),
        second: Part::nested(What::Catch, has(TRY_CATCH, n)),
        third: Part::nested(What::Body, has(TRY_FINALIZER, n)),
        fourth: NO_PART,
    }
}

// The parts that follow this word.
pub fn parts(word: Word) -> Parts
    ensures { result ≡ parts word }
{
    let n = word.number;
    let expression = Part::same(What::Expression, 1);
    let statements = Part::same(What::ListStatement, n);
    let loop_body = Part::new(What::SingleStatement, 1, Surroundings::LoopBody);
    match word.kind {
        Kind::Block => Parts::of(Part::nested(What::ListStatement, n), NO_PART),
        Kind::Expr | Kind::Throw | Kind::NameInit => Parts::of(expression, NO_PART),
        Kind::Var | Kind::Let => Parts::of(Part::same(What::Declarator, n), NO_PART),
        Kind::If => Parts {
            third: Part::nested(What::SingleStatement, n),
            ..Parts::of(expression, Part::nested(What::SingleStatement, 1))
        },
        Kind::For => for_parts(n),
        Kind::While => Parts::of(expression, loop_body),
        Kind::Do => Parts::of(loop_body, expression),
        Kind::Switch => Parts::of(
            expression,
            Part::new(What::Case, n, Surroundings::SwitchCase),
        ),
        Kind::Label => Parts::of(
            Part::new(What::SingleStatement, 1, Surroundings::LabelBody),
            NO_PART,
        ),
        Kind::Return => Parts::of(Part::same(What::Expression, n), NO_PART),
        Kind::Try => try_parts(n),
        Kind::Body | Kind::Catch | Kind::Default => Parts::of(statements, NO_PART),
        Kind::CatchName => Parts::of(Part::same(What::CatchParameter, 1), statements),
        Kind::Case => Parts::of(expression, statements),
        Kind::Sequence => Parts::of(Part::same(What::SequencePart, n), NO_PART),
        _ => Parts::of(NO_PART, NO_PART),
    }
}

// How many parts follow this word.
pub fn part_count(word: Word) -> usize
    ensures { result ≡ part_count word }
{
    let parts = parts(word);
    parts.first.times as usize
        + parts.second.times as usize
        + parts.third.times as usize
        + parts.fourth.times as usize
}
