// Lent lists of numbers: granted names, open labels.

#![tactic(auto)]

ghost use Rattle.std.specs.Prelude.{◌≡◌, ◌==◌, is_some};
ghost use Rattle.slices.specs.Among.{among};

// Whether an element is the name.
fn is_name(element: u32, name: u32) -> bool
    ensures { result ≡ element == name }
{
    element == name
}

// Where the first element stands that is this number. A loop, and no `any`: with one, scripts of many jumps to labels
// load in 1.3 to 1.5 times the time.
fn position(list: &[u32], number: u32) -> Option<usize>
    ensures { is_some result ≡ among number list.now }
{
    for (i, element) in list.iter().enumerate() {
        if is_name(*element, number) {
            return Some(i);
        }
    }
    None
}

// Whether the number is an element of the list.
pub fn contains(list: &[u32], number: u32) -> bool
    ensures { result ≡ among number list.now }
{
    position(list, number).is_some()
}
