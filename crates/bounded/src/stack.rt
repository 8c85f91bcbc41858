// A bounded stack over a lent slice, written once for every element.
ghost use Rattle.std.specs.Prelude.{◌≤◌, length};

mod methods;

// Its first `len` elements are what the stack holds, the last of them on top. A lent slice and a length, no Vec: below
// the program nothing has a heap.
#[derive(Drop)]
pub struct Stack<'a, T> {
    items: &'a mut [T],
    len: usize,
    ghost fits: { len ≤ length items.now },
}
