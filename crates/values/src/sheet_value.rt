// The values of a sheet, with strict equality and truth as ECMA-262 has them.
ghost use Rattle.std.specs.Prelude.{◌≡◌, Some};
ghost use Rattle.values.specs.Strict.{is_strictly_equal, to_boolean};
ghost use Rattle.values.specs.SheetValues.{boolean_value, language};
ghost use Rattle.values.specs.Shown.{value_shown};

use crate::text::Text;
use std::fmt;

#[derive(Clone, Copy, Debug)]
pub enum SheetValue {
    Yes,
    No,
    Number(i32),
    MinusZero,
    NotANumber,
    Text(Text),
}

impl From<bool> for SheetValue {
    ghost from_gives = { λ b v. v ≡ boolean_value b };

    fn from(b: bool) -> SheetValue {
        if b { SheetValue::Yes } else { SheetValue::No }
    }
}

impl SheetValue {
    // Strict equality, `===`.
    #[tactic(auto, using(crate::proofs::TextLemmas::equal_texts))]
    pub fn strictly_equals(&self, other: &SheetValue) -> bool
        ensures { result ≡ is_strictly_equal (language self.now) (language other.now) }
    {
        match (*self, *other) {
            (SheetValue::Yes, SheetValue::Yes)
            | (SheetValue::No, SheetValue::No)
            | (SheetValue::MinusZero, SheetValue::MinusZero) => true,
            (SheetValue::Number(a), SheetValue::Number(b)) => a == b,
            (SheetValue::Number(n), SheetValue::MinusZero)
            | (SheetValue::MinusZero, SheetValue::Number(n)) => n == 0,
            (SheetValue::Text(a), SheetValue::Text(b)) => a == b,
            _ => false,
        }
    }

    // Whether the value counts as true in a test.
    #[tactic(auto, using(crate::proofs::TextLemmas::text_true))]
    pub fn is_truthy(&self) -> bool
        ensures { result ≡ to_boolean (language self.now) }
    {
        match *self {
            SheetValue::Yes | SheetValue::Text(_) => true,
            SheetValue::Number(n) => n != 0,
            SheetValue::No | SheetValue::MinusZero | SheetValue::NotANumber => false,
        }
    }
}

impl fmt::Display for SheetValue {
    ghost output = { λ v. Some (value_shown v) };

    fn fmt<W: fmt::Write>(&self, f: &mut fmt::Formatter<W>) -> fmt::Result {
        match self {
            SheetValue::Yes => f.write_str("true"),
            SheetValue::No => f.write_str("false"),
            SheetValue::Number(number) => write!(f, "{number}"),
            SheetValue::MinusZero => f.write_str("-0"),
            SheetValue::NotANumber => f.write_str("NaN"),
            SheetValue::Text(text) => write!(f, "{text}"),
        }
    }
}
