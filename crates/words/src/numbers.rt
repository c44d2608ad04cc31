// Numbers in little-endian bytes, a u64 in two words, and an area.

ghost use Rattle.std.specs.Prelude.{◌≡◌, ◌+◌, ◌*◌, ◌/◌, ◌%◌, ◌^◌, ◌≤◌, length, take, drop};
ghost use Rattle.model.specs.Project.{number};

// A u64 in two words of a plan, low then high.
pub fn from_halves(low: u32, high: u32) -> u64
    ensures { result ≡ low + 2 ^ 32 * high }
{
    u64::from(low) + 0x1_0000_0000 * u64::from(high)
}

pub fn low_word(number: u64) -> u32
    ensures { result ≡ number % 2 ^ 32 }
{
    (number % 0x1_0000_0000) as u32
}

pub fn high_word(number: u64) -> u32
    ensures { result ≡ number / 2 ^ 32 }
{
    (number >> 32) as u32
}

// The place of a number is an index beside the bytes, as the format of the file gives it.
fn bytes_at<const N: usize>(file: &[u8], at: usize) -> [u8; N]
    requires { at + N ≤ length file.now }
    ensures { result ≡ take N (drop at file.now) }
{
    let mut bytes = [0; N];
    bytes.copy_from_slice(&file[at..at + N]);
    bytes
}

// The numbers of 1, 2, 4 and 8 bytes at a place, the lowest byte first.
pub fn number_1(file: &[u8], at: usize) -> u32
    requires { at + 1 ≤ length file.now }
    ensures { result ≡ number file.now at 1 }
{
    u32::from(file[at])
}

pub fn number_2(file: &[u8], at: usize) -> u32
    requires { at + 2 ≤ length file.now }
    ensures { result ≡ number file.now at 2 }
{
    u32::from(u16::from_le_bytes(bytes_at(file, at)))
}

pub fn number_4(file: &[u8], at: usize) -> u32
    requires { at + 4 ≤ length file.now }
    ensures { result ≡ number file.now at 4 }
{
    u32::from_le_bytes(bytes_at(file, at))
}

pub fn number_8(file: &[u8], at: usize) -> u64
    requires { at + 8 ≤ length file.now }
    ensures { result ≡ number file.now at 8 }
{
    u64::from_le_bytes(bytes_at(file, at))
}

pub fn area(width: u32, length: u32) -> u64
    ensures { result ≡ width * length }
{
    u64::from(width) * u64::from(length)
}
