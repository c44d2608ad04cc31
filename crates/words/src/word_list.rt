// At most 64 words in the value itself, which is copied with it.

ghost use Rattle.std.specs.Prelude.{◌≡◌, ◌==◌, [], ◌∷◌, ◌++◌, ◌+◌, ◌≤◌, ◌<◌, length};

use super::copying;
use std::marker::Model;
use std::mem;

const MOST_WORDS: usize = 64;

// The kit's `ArrayVec` is not `Copy`.
#[derive(Clone, Copy)]
pub struct WordList {
    words: [u32; MOST_WORDS],
    count: usize,
}

// Clauses see the words, as those of an `ArrayVec`. A value that may be copied gives its fields back, so the unused places hold zeros.
impl Model for WordList {
    ghost use Rattle.std.specs.Prelude.{ℕ, length, take};
    ghost use Rattle.arrayvec.specs.ArrayVec.{ArrayVec};
    ghost use Rattle.lists.specs.Padded.{Padded, padded};
    ghost use Rattle.lists.proofs.Padded.{array_back, count_back};

    ghost Value = { ArrayVec ℕ };

    ghost view = { λ l. record { items = take l.count l.words } };

    ghost invariant = { λ l. Padded 0 64 l.words l.count };

    ghost inverse = { λ v. record { words = padded 0 64 v.items; count = length v.items } };

    ghost inverse_ok = { λ l h i. record { words = array_back 0 64 l.words l.count h i; count = count_back 0 64 l.words l.count h i } };
}

impl WordList {
    pub fn new() -> Self
        ensures { result.items ≡ [] }
    {
        WordList {
            words: [0; MOST_WORDS],
            count: 0,
        }
    }

    // These words.
    pub fn of(words: &[u32]) -> Self
        requires { length words.now ≤ 64 }
        ensures { result.items ≡ words.now }
    {
        let mut held = [0u32; MOST_WORDS];
        copying::put_words(&mut held, 0, words);
        WordList {
            words: held,
            count: words.len(),
        }
    }

    pub fn as_slice(&self) -> &[u32]
        ensures value { result.now ≡ self.now.items }
        ensures fits { length result.now ≤ 64 }
    {
        &self.words[..self.count]
    }

    pub fn len(&self) -> usize
        ensures value { result ≡ length self.now.items }
        ensures fits { result ≤ 64 }
    {
        self.as_slice().len()
    }

    pub fn is_empty(&self) -> bool
        ensures { result ≡ (length self.now.items == 0) }
    {
        self.count == 0
    }

    // There must be room.
    pub fn push(&mut self, word: u32)
        requires { length self.old.items < 64 }
        ensures items { self.new.items ≡ self.old.items ++ word ∷ [] }
        ensures len { length self.new.items ≡ length self.old.items + 1 }
    {
        self.words[self.count] = word;
        self.count += 1;
    }

    // The list, which is empty afterwards.
    pub fn take(&mut self) -> Self
        ensures value { result ≡ self.old }
        ensures after { self.new.items ≡ [] }
    {
        mem::replace(self, Self::new())
    }
}
