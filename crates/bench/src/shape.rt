// Scripts of several shapes, each as long as asked or a few words shorter.
use std::alloc::Global;
use std::{fmt, iter};
use words::word::{Kind, Word};

// As many statements as may stand one inside another above the innermost.
const NESTED: u32 = 99;

#[derive(Clone, Copy)]
pub(crate) enum Shape {
    // Statements side by side.
    Flat,
    // Blocks inside one another.
    Deep,
    // Labels inside one another, each set on the next, above a loop that goes on to the outermost.
    Labels,
    // Breaks to the innermost of many labels.
    Jumps,
}

impl fmt::Display for Shape {
    fn fmt<W: fmt::Write>(&self, f: &mut fmt::Formatter<W>) -> fmt::Result {
        f.write_str(match self {
            Shape::Flat => "flat",
            Shape::Deep => "deep",
            Shape::Labels => "labels",
            Shape::Jumps => "jumps",
        })
    }
}

fn word(kind: Kind, number: u32) -> anyhow::Result<u32> {
    Ok(u32::try_from(Word { kind, number })?)
}

// Labels inside one another.
fn labels(heap: Global) -> anyhow::Result<Vec<u32>> {
    (0..NESTED)
        .map(|label| word(Kind::Label, label))
        .try_collect(heap)
}

impl Shape {
    // The words that are repeated to the script's end.
    fn chunk(self, heap: Global) -> anyhow::Result<Vec<u32>> {
        match self {
            Shape::Flat => Ok(vec![in heap; word(Kind::Empty, 0)?]?),
            Shape::Deep => {
                let mut words = vec![in heap; word(Kind::Block, 1)?; NESTED as usize]?;
                words.push(word(Kind::Empty, 0)?)?;
                Ok(words)
            }
            Shape::Labels => {
                let mut words = labels(heap)?;
                words.extend_from_slice(&[
                    word(Kind::While, 0)?,
                    word(Kind::Expression, 1)?,
                    word(Kind::ContinueTo, 0)?,
                ])?;
                Ok(words)
            }
            Shape::Jumps => Ok(vec![in heap; word(Kind::BreakTo, NESTED - 1)?]?),
        }
    }

    // The words before the chunks, if there are so many.
    fn beginning(self, heap: Global, chunks: u32) -> anyhow::Result<Vec<u32>> {
        match self {
            Shape::Jumps => {
                let mut words = vec![in heap; word(Kind::Body, 1)?]?;
                words.extend_from_slice(labels(heap)?.as_slice())?;
                words.push(word(Kind::Block, chunks)?)?;
                Ok(words)
            }
            _ => Ok(vec![in heap; word(Kind::Body, chunks)?]?),
        }
    }

    pub(crate) fn script(self, heap: Global, length: usize) -> anyhow::Result<Vec<u32>> {
        let chunk = self.chunk(heap)?;
        let left = length.saturating_sub(self.beginning(heap, 0)?.len());
        let count = left.checked_div(chunk.len()).unwrap_or(0);
        let mut script = self.beginning(heap, u32::try_from(count)?)?;
        script.extend(iter::repeat_n(chunk.as_slice(), count).flatten().copied())?;
        Ok(script)
    }
}
