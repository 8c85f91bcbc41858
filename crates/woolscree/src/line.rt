// A line of a job, cut into words.
use crate::problem::{LineFault, Problem};
use std::alloc::Global;

// The words of a line and the text in quotes after them, without the comment.
#[derive(Drop)]
pub(crate) struct Line<'a> {
    pub(crate) words: Vec<&'a str>,
    pub(crate) text: Option<&'a str>,
}

fn before_comment(part: &str) -> &str {
    part.split_once('#').map_or(part, |(before, _)| before)
}

// What stands before a text in quotes, and that text.
fn cut(line: &str) -> Result<(&str, Option<&str>), Problem> {
    let Some((before, rest)) = line.split_once('"') else {
        return Ok((before_comment(line), None));
    };
    if before.contains('#') {
        return Ok((before_comment(line), None));
    }
    let (text, after) = rest.split_once('"').ok_or(Problem::OpenText)?;
    if !before_comment(after).trim().is_empty() {
        return Err(Problem::AfterText);
    }
    Ok((before, Some(text)))
}

impl<'a> Line<'a> {
    // No `FromStr`, since it takes the allocator.
    pub(crate) fn read(heap: Global, line: &'a str) -> Result<Line<'a>, LineFault> {
        let (before, text) = cut(line)?;
        let words = before.split_whitespace().collect(heap)?;
        Ok(Line { words, text })
    }
}
