// Bytes put one after the other into a buffer of fixed room, and numbers as text. What does not fit is left out: each method says so by the one
// word `with_bytes`.

ghost use Rattle.std.specs.Prelude.{[], ◌∷◌, ◌≤◌, ◌<◌, ◌≡◌, ◌↔◌, IsTrue, length};
ghost use Rattle.model.specs.FileOf.{bytes_of};
ghost use Rattle.words.specs.Appending.{with_bytes, Appended, Front};
ghost use Rattle.words.specs.Numerals.{decimal_of, hex_digits, hex_digit};

use arrayvec::ArrayVec;
use std::marker::Model;

// At most `N` bytes.
#[derive(Drop)]
pub struct Buffer<const N: usize> {
    bytes: ArrayVec<u8, N>,
}

// Clauses see the bytes that were put in.
impl<const N: usize> Model for Buffer<N> {
    ghost use Rattle.std.specs.Prelude.{List, ℕ};

    ghost Value = { List ℕ };

    ghost view = { λ b. b.bytes.items };
}

impl<const N: usize> Buffer<N> {
    pub fn new() -> Self
        ensures { result ≡ [] }
    {
        Buffer {
            bytes: ArrayVec::new(),
        }
    }

    pub fn as_slice(&self) -> &[u8]
        ensures bytes { result.now ≡ self.now }
        ensures within { length self.now ≤ N }
    {
        self.bytes.as_slice()
    }

    pub fn is_full(&self) -> bool
        ensures { IsTrue result ↔ (length self.now ≡ N) }
    {
        self.bytes.is_full()
    }

    pub fn push(&mut self, byte: u8)
        ensures { self.new ≡ with_bytes N self.old (byte ∷ []) }
    {
        let _fits = self.bytes.try_push(byte);
    }

    pub fn push_bytes(&mut self, bytes: &[u8])
        ensures { self.new ≡ with_bytes N self.old bytes.now }
    {
        let count = bytes.len().min(self.bytes.remaining_capacity());
        let _fits = self.bytes.try_extend_from_slice(&bytes[..count]);
    }

    // The lowest `count` bytes of a number, the lowest first.
    pub fn push_number(&mut self, number: u64, count: usize)
        ensures { self.new ≡ with_bytes N self.old (bytes_of count number) }
    {
        if count > 0 {
            self.push((number % 256) as u8);
            self.push_number(number / 256, count - 1);
        }
    }

    pub fn push_decimal(&mut self, number: u64)
        ensures { self.new ≡ with_bytes N self.old (decimal_of number) }
    {
        if number >= 10 {
            self.push_decimal(number / 10);
        }
        self.push(b'0' + (number % 10) as u8);
    }

    // The last `count` hexadecimal digits of a number, in upper case.
    pub fn push_hex(&mut self, number: u64, count: usize)
        ensures { self.new ≡ with_bytes N self.old (hex_digits count number) }
    {
        if count > 0 {
            self.push_hex(number / 16, count - 1);
            self.push(hex_digit(number % 16));
        }
    }
}

// Bytes into lent ones, as far as these reach: how many there are. Those behind stay.
pub fn put_front(bytes: &[u8], out: &mut [u8]) -> usize
    ensures appended { Appended out.old 0 bytes.now out.new result }
    ensures front { Front result out.new }
{
    let size = bytes.len().min(out.len());
    out[..size].copy_from_slice(&bytes[..size]);
    size
}

fn hex_digit(digit: u64) -> u8
    requires { digit < 16 }
    ensures { result ≡ hex_digit digit }
{
    if digit < 10 {
        return b'0' + digit as u8;
    }
    b'A' - 10 + digit as u8
}
