// What a caller keeps of a script between calls.
#[derive(Clone, Copy, PartialEq, Eq, Debug)]
pub struct Record {
    // How many words of the space the script has.
    pub used: u32,
    // What the script weighed when it was loaded.
    pub weight: u32,
    // How many changes were made since.
    pub changes: u32,
}
