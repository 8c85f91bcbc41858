// The format as one table: which kinds may stand where, which numbers they may have, and which parts follow.

#![tactic(auto)]

ghost use Rattle.std.specs.Prelude.{◌≡◌, ◌+◌, ◌<◌, ◌≤◌};
ghost use Rattle.words.specs.Words.{has};
ghost use Rattle.grammar.specs.Format.{admits, after, has_depth_lem, allows};

use words::word::*;

pub mod table;

// A For's number is the sum of these, for the parts that it has.
pub const FOR_EXPRESSION: u32 = 1;

pub const FOR_DECLARATION: u32 = 2;

pub const FOR_TEST: u32 = 4;

pub const FOR_UPDATE: u32 = 8;

// An If's number where it has an alternate, and a Return's where it has a value; else 0.
pub const IF_ALTERNATE: u32 = 1;

pub const RETURN_VALUE: u32 = 1;

// A Try's number is the sum of these, for the parts that it has.
pub const TRY_CATCH: u32 = 1;

pub const TRY_FINALIZER: u32 = 2;

const FOR_ALL: u32 = FOR_EXPRESSION + FOR_DECLARATION + FOR_TEST + FOR_UPDATE;

const TRY_ALL: u32 = TRY_CATCH + TRY_FINALIZER;

const FEWEST_DECLARATORS: u32 = 1;

const SHORTEST_SEQUENCE: u32 = 2;

// 1 where a number is a sum with such a part in it, else 0.
pub fn has(part: u32, number: u32) -> u32
    requires { 0 < part }
    ensures value { result ≡ has part number }
    ensures small { result ≤ 1 }
{
    number / part % 2
}

// What a part may be.
#[derive(Clone, Copy)]
pub enum What {
    // a statement of a list, where a Let may stand
    ListStatement,
    // a statement that stands alone
    SingleStatement,
    // the Var or Let that begins a For
    ForDeclaration,
    Declarator,
    // the name that a catch binds
    CatchParameter,
    Expression,
    // one expression of a Sequence
    SequencePart,
    Body,
    Catch,
    // a Case, or the Switch's Default
    Case,
    // a Case, where the Switch has had its Default
    CaseAfterDefault,
}

// What is around a part, seen from the word that it belongs to.
#[derive(Clone, Copy)]
pub enum Surroundings {
    // the same as around the word
    Same,
    // one statement more
    Nested,
    // one statement more, and inside a loop
    LoopBody,
    // one statement more, and inside a Switch
    SwitchCase,
    // one statement more, and inside a Label
    LabelBody,
}

// So many parts alike.
#[derive(Clone, Copy)]
pub struct Part {
    pub what: What,
    pub times: u32,
    pub surroundings: Surroundings,
}

// The parts of a word, in written order. Four fields, no array: definitions of other crates name each.
#[derive(Clone, Copy)]
pub struct Parts {
    pub first: Part,
    pub second: Part,
    pub third: Part,
    pub fourth: Part,
}

impl What {
    // Whether a word of this kind may stand here.
    pub fn admits(self, kind: Kind) -> bool
        ensures { result ≡ admits self kind }
    {
        match self {
            What::ListStatement => kind.is_between(Kind::Empty, Kind::Try),
            What::SingleStatement => kind.is_between(Kind::Empty, Kind::Var)
                || kind.is_between(Kind::If, Kind::Try),
            What::ForDeclaration => kind.is_between(Kind::Var, Kind::Let),
            What::Declarator => kind.is_between(Kind::Name, Kind::NameInit),
            What::CatchParameter => kind.is_between(Kind::Name, Kind::Name),
            What::Expression => kind.is_between(Kind::Expression, Kind::Sequence),
            What::SequencePart => kind.is_between(Kind::Expression, Kind::Expression),
            What::Body => kind.is_between(Kind::Body, Kind::Body),
            What::Catch => kind.is_between(Kind::Catch, Kind::CatchName),
            What::Case => kind.is_between(Kind::Case, Kind::Default),
            What::CaseAfterDefault => kind.is_between(Kind::Case, Kind::Case),
        }
    }

    // What may stand here after a word of this kind: a Switch has at most one Default.
    pub fn after(self, kind: Kind) -> What
        ensures { result ≡ after self kind }
    {
        if kind == Kind::Default {
            What::CaseAfterDefault
        } else {
            self
        }
    }

    // Whether the statements around it count: they do for statements and cases.
    pub fn has_depth(self) -> bool
        ensures { result ≡ has_depth_lem self }
    {
        match self {
            What::ListStatement | What::SingleStatement | What::Case | What::CaseAfterDefault =>
                true,
            _ => false,
        }
    }
}

// Whether a word of this kind may have this number.
pub fn allows(kind: Kind, number: u32) -> bool
    ensures { result ≡ allows kind number }
{
    match kind {
        Kind::Unlisted => false,
        Kind::Empty
        | Kind::Expr
        | Kind::While
        | Kind::Do
        | Kind::Break
        | Kind::Continue
        | Kind::Throw => number == 0,
        Kind::Var | Kind::Let => FEWEST_DECLARATORS <= number,
        Kind::If => number <= IF_ALTERNATE,
        Kind::For => number <= FOR_ALL
            && has(FOR_EXPRESSION, number) + has(FOR_DECLARATION, number) <= 1,
        Kind::Return => number <= RETURN_VALUE,
        Kind::Try => TRY_CATCH <= number && number <= TRY_ALL,
        Kind::Sequence => SHORTEST_SEQUENCE <= number,
        _ => true,
    }
}
