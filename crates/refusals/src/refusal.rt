// What a refused call tells its caller.
ghost use Rattle.std.specs.Prelude.{Some};
ghost use Rattle.refusals.specs.Texts.{layer_text};

use std::fmt;

// The part of the program that found a rule broken.
#[derive(Clone, Copy, PartialEq, Eq, Debug)]
pub enum Layer {
    Space,
    Reader,
    Tree,
    Host,
    Fold,
}

impl fmt::Display for Layer {
    ghost output = { λ l. Some (layer_text l) };

    fn fmt<W: fmt::Write>(&self, f: &mut fmt::Formatter<W>) -> fmt::Result {
        f.write_str(match self {
            Layer::Space => "space",
            Layer::Reader => "reader",
            Layer::Tree => "tree",
            Layer::Host => "host",
            Layer::Fold => "fold",
        })
    }
}

// Which rule was broken, by its number, which part of the program found it, and where.
#[derive(Clone, Copy, PartialEq, Eq, Debug)]
pub struct Refusal {
    pub number: u32,
    pub layer: Layer,
    pub place: usize,
}
