// Numbers as bytes, the lowest first.
ghost use Rattle.std.specs.Prelude.{◌≡◌, ◌+◌, ◌≤◌, length};
ghost use Rattle.words.specs.Overwrite.{overwrite};
ghost use Rattle.codec.specs.Bytes.{bytes_of, operand};

// The number in the two bytes from a place on.
pub fn number2(bytes: &[u8], from: usize) -> u32
    requires { from + 2 ≤ length bytes.now }
    ensures { result ≡ operand bytes.now from 2 }
{
    u32::from(u16::from_le_bytes([bytes[from], bytes[from + 1]]))
}

// The number in the four bytes from a place on.
pub fn number4(bytes: &[u8], from: usize) -> u32
    requires { from + 4 ≤ length bytes.now }
    ensures { result ≡ operand bytes.now from 4 }
{
    u32::from_le_bytes([
        bytes[from],
        bytes[from + 1],
        bytes[from + 2],
        bytes[from + 3],
    ])
}

// Writes so many bytes of a number from a place on.
pub fn put_number(out: &mut [u8], from: usize, count: usize, number: u64)
    requires { from + count ≤ length out.old }
    ensures { out.new ≡ overwrite out.old from (bytes_of count number) }
{
    let mut rest = number;
    for byte in &mut out[from..from + count] {
        *byte = (rest % 256) as u8;
        rest /= 256;
    }
}

// Writes bytes over others from a place on.
pub fn put_bytes(out: &mut [u8], from: usize, bytes: &[u8])
    requires { from + length bytes.now ≤ length out.old }
    ensures { out.new ≡ overwrite out.old from bytes.now }
{
    out[from..from + bytes.len()].copy_from_slice(bytes);
}
