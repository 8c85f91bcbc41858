// A host: what the expressions of a script mean, and the questions that it answers about them.

#![tactic(auto)]

ghost use Rattle.std.specs.Prelude.{◌≡◌};
ghost use Rattle.std.specs.Option.{option_map};
ghost use Rattle.host.specs.Model.{Model, Lawful, Value as Meaning};

pub mod sequence;

// An expression is a number below `count`. A question answers alike each time and alters nothing.
pub trait Host {
    // The host's own kind of value.
    type Value: Drop;

    // The meaning of this host's expressions, names and scopes, with the answers that it gives.
    ghost model: { Self → Model };

    // The list of whole numbers that a value stands for.
    ghost meaning: { Self.Value → Meaning };

    // Every host of this type keeps the laws.
    ghost lawful: { (h : Self) → Lawful (model h) };

    // How many expressions there are.
    fn count(&self) -> u32
        ensures { result ≡ (model self.now).count };

    // Whether an expression's value is true, where that is known.
    fn truth(&self, e: u32) -> Option<bool>
        ensures { result ≡ (model self.now).truth? e };

    // An expression's value, where it is known.
    fn value(&self, e: u32) -> Option<Self::Value>
        ensures { option_map meaning result ≡ (model self.now).value? e };

    // Whether evaluating an expression may do more than give a value.
    fn effects(&self, e: u32) -> bool
        ensures { result ≡ (model self.now).effects? e };

    // Whether an expression is a literal.
    fn literal(&self, e: u32) -> bool
        ensures { result ≡ (model self.now).literal? e };

    // Whether two values are strictly equal, the first on the left.
    fn same(&self, a: &Self::Value, b: &Self::Value) -> bool
        ensures { result ≡ (model self.now).strictly_equal (meaning a.now) (meaning b.now) };

    // Whether a name is granted: its declaration may be dropped.
    fn granted(&self, name: u32) -> bool
        ensures { result ≡ (model self.now).granted? name };
}
