// Values of the sheet host, as a job writes them. Functions, no `FromStr`: the type is another crate's.
use crate::problem::Problem;
use values::sheet_value::SheetValue;
use values::text::Text;

// The value that stands in a job without quotes.
pub(crate) fn read_value(word: &str) -> Result<SheetValue, Problem> {
    match word {
        "true" => Ok(SheetValue::Yes),
        "false" => Ok(SheetValue::No),
        "NaN" => Ok(SheetValue::NotANumber),
        "-0" => Ok(SheetValue::MinusZero),
        _ => word
            .parse::<i32>()
            .map(SheetValue::Number)
            .map_err(|_| Problem::BadValue),
    }
}

// The value of a text in quotes.
pub(crate) fn read_text(text: &str) -> Result<SheetValue, Problem> {
    Text::new(text.as_bytes())
        .map(SheetValue::Text)
        .ok_or(Problem::BadValue)
}
