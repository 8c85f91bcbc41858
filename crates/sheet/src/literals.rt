// The entries of the least sheet, which its maker lends to it.
ghost use Rattle.std.specs.Prelude.{◌≡◌, true, [], ◌∷◌, pos};
ghost use Rattle.values.specs.declared.sheet_value.SheetValue.TheVariants.{Number};
ghost use Rattle.sheet.specs.SheetRows.{are_zero_and_one};

use values::sheet_value::SheetValue;

// The whole numbers 0 and 1.
#[derive(Drop)]
pub struct Literals {
    pub(crate) entries: [SheetValue; 2],
    ghost numbers: { are_zero_and_one entries ≡ true },
}

impl Literals {
    pub fn new() -> Literals
        ensures { result.entries ≡ Number (pos 0) ∷ (Number (pos 1) ∷ []) }
    {
        Literals {
            entries: [SheetValue::Number(0), SheetValue::Number(1)],
        }
    }
}
