// The stack's methods, apart from its struct: their contracts cite definitions over it.
ghost use Rattle.std.specs.Prelude.{◌≡◌, ◌-◌, ◌<◌, ◌≤◌, min, [], ◌∷◌, ◌++◌, length, take, MatchOption, MatchResult};
ghost use Rattle.bounded.specs.Stack.{held, room, slots};

use crate::stack::Stack;

// Each method on a `&mut` also says that the stack stays over the same slice (`lender`), with the same room:
// a caller that goes on with the stack needs both.
impl<'a, T: Copy + Drop> Stack<'a, T> {
    // A stack with nothing on it, with room for as many elements as the slice has.
    pub fn new(items: &'a mut [T]) -> Stack<'a, T>
        ensures empty { held result ≡ [] }
        ensures room { room result ≡ length items.old }
        ensures slots { slots result ≡ items.old }
    {
        Stack { items, len: 0 }
    }

    pub fn len(&self) -> usize
        ensures { result ≡ length (held self.now) }
    {
        self.as_slice().len()
    }

    // One more on top, or the value back where there is no room.
    pub fn push(&mut self, value: T) -> Result<(), T>
        ensures cases { MatchResult result
            (λ _. held self.new ≡ held self.old ++ value ∷ [])
            (λ back. (back ≡ value) × (length (held self.old) ≡ room self.old)
            × (held self.new ≡ held self.old) × (slots self.new ≡ slots self.old)) }
        ensures room { room self.new ≡ room self.old }
        ensures lender { self.new.items.ghost_name ≡ self.old.items.ghost_name }
    {
        let at = self.len;
        if at >= self.items.len() {
            return Err(value);
        }
        self.items[at] = value;
        self.len += 1;
        Ok(())
    }

    // Takes off the top one.
    pub fn pop(&mut self) -> Option<T>
        ensures cases { MatchOption result
            ((held self.old ≡ []) × (held self.new ≡ []))
            (λ top. held self.old ≡ held self.new ++ top ∷ []) }
        ensures room { room self.new ≡ room self.old }
        ensures slots { slots self.new ≡ slots self.old }
        ensures lender { self.new.items.ghost_name ≡ self.old.items.ghost_name }
    {
        if self.len == 0 {
            return None;
        }
        // By its index: a copy of what `last` lends is read in larger pieces than a push wrote, and waits for the writes.
        self.len -= 1;
        Some(self.items[self.len])
    }

    // The top one, which stays.
    pub fn top(&self) -> Option<T>
        ensures { MatchOption result
            (held self.now ≡ [])
            (λ top. held self.now ≡ take (length (held self.now) - 1) (held self.now) ++ top ∷ []) }
    {
        self.as_slice().last().copied()
    }

    // Keeps the first n, all where there are no more.
    pub fn truncate(&mut self, n: usize)
        ensures held { held self.new ≡ take n (held self.old) }
        ensures room { room self.new ≡ room self.old }
        ensures slots { slots self.new ≡ slots self.old }
        ensures lender { self.new.items.ghost_name ≡ self.old.items.ghost_name }
    {
        self.len = self.len.min(n);
    }

    // What the stack holds, the top one last.
    pub fn as_slice(&self) -> &[T]
        ensures { result.now ≡ held self.now }
    {
        &self.items[..self.len]
    }
}
