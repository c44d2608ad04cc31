// The words of a line, one after the other, and what they say.

ghost use Rattle.std.specs.Prelude.{◌≡◌, ℕ, Bool, true, false, [], ◌∷◌, map, MatchResult};
ghost use Rattle.std.specs.List.{before_first};
ghost use Rattle.lists.specs.Base.{is_empty};
ghost use Rattle.typed.specs.Words.{is_blank, from_first, first_word, after_word, decimal_value, read_digits, code_in};
ghost use Rattle.typed.specs.Lines.{IsTaken, says, passed, number, choice, quantity, grain, flag_of, setting_of, why_of};

use super::line::{Kind, Reason, Setting};

pub const MOST_NUMBER: u64 = u32::MAX as u64;

fn is_blank(byte: u8) -> bool
    ensures { result ≡ is_blank byte }
{
    matches!(byte, b' ' | b'\t' | b'\r')
}

// The text up to the first byte that passes a test, and the rest, from that byte on.
fn split_before<F: Fn(u8) -> bool>(text: &[u8], stops: F) -> (&[u8], &[u8])
    requires { F.IsAlwaysCallable stops }
    ensures { (p : ℕ → Bool) → ((c : ℕ) (r : Bool) → F.post stops c r → r ≡ p c) → (result.0.now ≡ before_first p text.now) × (result.1.now ≡ from_first p text.now) }
{
    let place = text.iter().position(|byte| stops(*byte));
    text.split_at(place.unwrap_or(text.len()))
}

// The number with one more digit behind it, unless it is no digit or the number becomes too large.
fn more_digits(number: u64, byte: u8, most: u64) -> Option<u64>
    ensures { result ≡ read_digits most number (byte ∷ []) }
{
    let digit = char::from(byte).to_digit(10)?;
    let more = number.checked_mul(10)?.checked_add(u64::from(digit))?;
    if more > most {
        return None;
    }
    Some(more)
}

// The decimal number that a word says; an empty word says none.
fn digits(word: &[u8], most: u64) -> Option<u64>
    ensures { result ≡ decimal_value most word.now }
{
    if word.is_empty() {
        return None;
    }
    let mut number = 0;
    for byte in word {
        number = more_digits(number, *byte, most)?;
    }
    Some(number)
}

// The place of a word in a table.
fn place_in(table: &[&[u8]], word: &[u8]) -> Option<usize>
    ensures { result ≡ code_in 0 (map (λ t. t.now) table.now) word.now }
{
    table.iter().position(|known| word == *known)
}

// What is left of a line.
#[derive(Drop)]
pub struct Words<'a> {
    pub rest: &'a [u8],
}

impl<'a> Words<'a> {
    // The next word; an empty one where the line has no more. `#` begins a comment.
    pub fn next_word(&mut self) -> &'a [u8]
        ensures word { result.now ≡ first_word self.old.rest.now }
        ensures left { self.new.rest.now ≡ after_word self.old.rest.now }
    {
        let (_, text) = split_before(self.rest, |byte| !is_blank(byte));
        let (word, rest) = split_before(text, |byte| is_blank(byte) || byte == b'#');
        self.rest = rest;
        word
    }

    // Passes the next word if it is this one, and says whether it is.
    fn skip(&mut self, word: &[u8]) -> bool
        ensures skipped { result ≡ says word.now self.old.rest.now }
        ensures left { self.new.rest.now ≡ passed word.now self.old.rest.now }
    {
        let before = self.rest;
        if self.next_word() == word {
            return true;
        }
        self.rest = before;
        false
    }

    pub fn number(&mut self, most: u64) -> Result<u64, Reason>
        ensures { IsTaken (number most self.old.rest.now) Reason.Number (after_word self.old.rest.now) result self.new.rest.now }
    {
        digits(self.next_word(), most).ok_or(Reason::Number)
    }

    // The place of the next word in a table.
    fn choice(&mut self, table: &[&[u8]]) -> Result<u64, Reason>
        ensures { IsTaken (choice 0 (map (λ t. t.now) table.now) self.old.rest.now) Reason.Choice (after_word self.old.rest.now) result self.new.rest.now }
    {
        let place = place_in(table, self.next_word()).ok_or(Reason::Choice)?;
        Ok(place as u64)
    }

    pub fn quantity(&mut self) -> Result<u64, Reason>
        ensures { IsTaken (quantity self.old.rest.now) Reason.Number (after_word (after_word self.old.rest.now)) result self.new.rest.now }
    {
        if !self.skip(b"x") {
            return Ok(1);
        }
        self.number(MOST_NUMBER)
    }

    pub fn grain(&mut self) -> Result<u64, Reason>
        ensures { IsTaken (grain self.old.rest.now) Reason.Choice (after_word (after_word self.old.rest.now)) result self.new.rest.now }
    {
        if !self.skip(b"grain") {
            return Ok(0);
        }
        let along = self.choice(&[b"width", b"length"])?;
        Ok(1 + along)
    }

    // A board is finite; a panel may say `turn`.
    pub fn flag(&mut self, kind: Kind) -> u64
        ensures { flag_of kind self.old.rest.now ≡ Some (result, self.new.rest.now) }
    {
        match kind {
            Kind::Board => 1,
            Kind::Panel => u64::from(self.skip(b"turn")),
        }
    }

    pub fn setting(&mut self, setting: Setting) -> Result<u64, Reason>
        ensures { IsTaken (setting_of setting self.old.rest.now) (why_of setting) (after_word self.old.rest.now) result self.new.rest.now }
    {
        match setting {
            Setting::Kerf => self.number(MOST_NUMBER),
            Setting::Layout => self.choice(&[b"guillotine", b"nested"]),
            Setting::Effort => self.choice(&[b"fast", b"balanced", b"thorough"]),
            Setting::Unit => self.choice(&[b"mm", b"inch", b"foot"]),
        }
    }

    // Nothing but a comment may follow.
    pub fn end(&mut self) -> Result<(), Reason>
        ensures ended { MatchResult result (λ _. is_empty (first_word self.old.rest.now) ≡ true) (λ why. (why ≡ Reason.Extra) × (is_empty (first_word self.old.rest.now) ≡ false)) }
        ensures left { self.new.rest.now ≡ after_word self.old.rest.now }
    {
        if !self.next_word().is_empty() {
            return Err(Reason::Extra);
        }
        Ok(())
    }
}
