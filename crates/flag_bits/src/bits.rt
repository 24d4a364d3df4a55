// Flags as the bits of a byte.
ghost use Rattle.std.specs.Prelude.{◌≡◌, ◌<◌};
ghost use Rattle.register_block.specs.Block.{has_bit, flags_in, flag_byte, any_of_both, flags_cleared};

use register_block::Flags;

// Whether a byte has the bit of a value: 1 for bit 0, 2 for bit 1, 4 for bit 2.
fn has_bit(value: u8, byte: u8) -> bool
    requires { 0 < value }
    ensures { result ≡ has_bit value byte }
{
    byte / value % 2 == 1
}

// The flags in a byte; its other bits mean nothing.
pub fn flags_in(byte: u8) -> Flags
    ensures { result ≡ flags_in byte }
{
    Flags {
        done: has_bit(1, byte),
        refused: has_bit(2, byte),
        full: has_bit(4, byte),
    }
}

// The byte of flags.
pub fn flag_byte(flags: Flags) -> u8
    ensures { result ≡ flag_byte flags }
{
    u8::from(flags.done) + 2 * u8::from(flags.refused) + 4 * u8::from(flags.full)
}

// A flag is left where no one is written to it: "Writing ones to 14 clears those flags."
pub fn cleared(flags: Flags, ones: Flags) -> Flags
    ensures { result ≡ flags_cleared flags ones }
{
    Flags {
        done: flags.done && !ones.done,
        refused: flags.refused && !ones.refused,
        full: flags.full && !ones.full,
    }
}

// Whether "a flag and its mask bit are both set". By `&` and `|` it needs no branch: by `&&` and `||` it takes twice as long, and a chip may ask for its line at any time.
pub fn any_of_both(flags: Flags, mask: Flags) -> bool
    ensures { result ≡ any_of_both flags mask }
{
    (flags.done & mask.done) | (flags.refused & mask.refused) | (flags.full & mask.full)
}
