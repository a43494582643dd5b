// Marks of variables, which are found in the order of their numbers: so a block needs no sort.
ghost use Rattle.std.specs.Prelude.{◌≡◌, ◌≢◌, ◌++◌, ◌∷◌, ◌+◌, ◌*◌, ◌<◌, ◌≤◌, ℕ, All, IfOk, length, slice_index_or, slice_set, true};
ghost use Rattle.std.specs.Int.{bit_at};
ghost use Rattle.wave_out.specs.Marks.{bools, seen, trues, AreClear, AreMarks, IsDone, IsSized};

use std::alloc::{AllocError, Global};

/// The lowest bit of a word that is set, and the word without it.
pub fn take_bit(word: u64) -> (u32, u64)
    requires { word ≢ 0 }
    ensures bit { result.0 < 64 }
    ensures set { bit_at word result.0 ≡ 1 }
    ensures lowest { (i : ℕ) → i < result.0 → bit_at word i ≡ 0 }
    ensures less { result.1 < word }
    ensures others { (i : ℕ) → i < 64 → i ≢ result.0 → bit_at result.1 i ≡ bit_at word i }
    ensures gone { bit_at result.1 result.0 ≡ 0 }
    ensures first { (k : ℕ) → trues k (bools 64 word) ≡ (k + result.0) ∷ trues k (bools 64 result.1) }
{
    let bit = word.trailing_zeros();
    (bit, word & !(1 << bit))
}

/// Which of some variables are marked: a bit each, and a bit for each word of these that isn't 0.
#[derive(Drop)]
pub struct Marks {
    /// The bits of the variables.
    pub words: Vec<u64>,
    /// The bits of the words.
    pub groups: Vec<u64>,
}

impl Marks {
    /// Of so many variables none is marked.
    pub fn new(alloc: Global, count: u32) -> Result<Marks, AllocError>
        ensures { IfOk result (λ m. AreClear count m) }
    {
        let words = count as usize / 64 + 1;
        Ok(Marks {
            words: vec![in alloc; 0; words]?,
            groups: vec![in alloc; 0; words / 64 + 1]?,
        })
    }

    /// The k-th one is marked.
    pub fn mark(&mut self, k: u32)
        requires k { k < 64 * length self.old.words.items }
        requires marks { AreMarks self.old }
        ensures marks { AreMarks self.new }
        ensures seen { seen self.new.words.items ≡ slice_set (seen self.old.words.items) k true }
        ensures words { length self.new.words.items ≡ length self.old.words.items }
    {
        let word = k as usize / 64;
        self.words[word] |= 1 << (k % 64);
        self.groups[word / 64] |= 1 << (word % 64);
    }

    /// Takes the first word of a group that isn't 0: the number of its first variable, and the marks.
    pub fn take_word(&mut self, group: usize) -> (u32, u64)
        requires group { group < length self.old.groups.items }
        requires some { slice_index_or self.old.groups.items group 0 ≢ 0 }
        requires marks { AreMarks self.old }
        requires done { IsDone group self.old }
        ensures marks { AreMarks self.new }
        ensures done { IsDone group self.new }
        ensures less { slice_index_or self.new.groups.items group 0 < slice_index_or self.old.groups.items group 0 }
        ensures groups { length self.new.groups.items ≡ length self.old.groups.items }
        ensures words { length self.new.words.items ≡ length self.old.words.items }
        ensures taken { trues 0 (seen self.old.words.items) ≡ trues result.0 (bools 64 result.1) ++ trues 0 (seen self.new.words.items) }
    {
        let (bit, rest) = take_bit(self.groups[group]);
        self.groups[group] = rest;
        let word = group * 64 + bit as usize;
        let marks = self.words[word];
        self.words[word] = 0;
        (word as u32 * 64, marks)
    }

    /// None is marked any more.
    pub fn clear(&mut self)
        requires { IsSized self.old }
        ensures marks { AreMarks self.new }
        ensures none { IsDone (length self.new.groups.items) self.new }
        ensures words { length self.new.words.items ≡ length self.old.words.items }
    {
        clear_all(&mut self.words);
        clear_all(&mut self.groups);
    }
}

fn clear_all(words: &mut Vec<u64>)
    ensures zero { (j : ℕ) → slice_index_or words.new.items j 0 ≡ 0 }
    ensures length { length words.new.items ≡ length words.old.items }
{
    for i in 0..words.len() {
        words[i] = 0;
    }
}
