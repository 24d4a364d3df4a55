// The flags of the register block.

// "Flag bit 0 is done, set by refused commands too, bit 1 refused, bit 2 64 open after the command".
#[derive(Clone, Copy)]
pub struct Flags {
    pub done: bool,
    pub refused: bool,
    pub full: bool,
}
