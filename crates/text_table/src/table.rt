ghost use Rattle.std.specs.Prelude.{◌≡◌, List, ℕ, Some, None, OnOk, OnErr, false, true, if◌then◌else◌, option_copied};
ghost use Rattle.std.specs.Str.{bytes_eq};

use std::alloc::Global;
use std::collections::{BTreeMap, HashMap};
use std::hash::{BuildHasherDefault, DefaultHasher, FoldHasher, Hasher};
use xom_base::NoMemory;

/// A text and its value.
#[derive(Drop)]
struct TextRow<V> {
    text: Vec<u8>,
    value: V,
}

/// A table of texts, each with a value. The first text of each fingerprint stands at the fingerprint;
/// texts whose fingerprint another one had before are kept in their order.
#[derive(Drop)]
pub struct TextTable<V> {
    firsts: HashMap<u64, TextRow<V>, BuildHasherDefault<FoldHasher>>,
    others: BTreeMap<Vec<u8>, V>,
    hasher: DefaultHasher,
    alloc: Global,
}

impl<V: Drop> TextTable<V> {
    ghost use Rattle.text_table.specs.Tables.{fingerprint_in, first_value, is_other, keyed_fingerprint, row_at, value_in};

    /// No text. It takes no memory. Who may know of the secret can make texts of one fingerprint, and so a
    /// slow table, but no wrong one.
    #[tactic(auto, unfolding(crate::specs::Tables::fingerprint_of))]
    pub fn new(alloc: Global, secret: &[u8; 32]) -> TextTable<V>
        ensures empty { (text : List ℕ) → value_in result text ≡ None }
        ensures keyed { (text : List ℕ) → fingerprint_in result text ≡ keyed_fingerprint secret.now text }
    {
        let mut hasher = DefaultHasher::new();
        hasher.write(secret);
        TextTable {
            firsts: HashMap::new(alloc),
            others: BTreeMap::new(alloc),
            hasher,
            alloc,
        }
    }

    /// The value of a text. It costs a look-up in a hash table, and one in an ordered map where another
    /// text was the first of its fingerprint.
    pub fn get(&self, text: &[u8]) -> Option<&V>
        ensures { option_copied result ≡ value_in self.now text.now }
    {
        match self.first(text) {
            Some(value) => Some(value),
            None => self.others.get(text),
        }
    }

    /// The value of a text that is the first of its fingerprint.
    fn first(&self, text: &[u8]) -> Option<&V>
        ensures { option_copied result ≡ first_value (row_at self.now (fingerprint_in self.now text.now)) text.now }
    {
        let row = self.firsts.get(&self.fingerprint(text))?;
        if row.text.as_slice() == text {
            Some(&row.value)
        } else {
            None
        }
    }

    /// Whether another text is the first of this fingerprint.
    fn is_taken(&self, fingerprint: u64, text: &[u8]) -> bool
        ensures { result ≡ is_other (row_at self.now fingerprint) text.now }
    {
        match self.firsts.get(&fingerprint) {
            Some(row) => row.text.as_slice() != text,
            None => false,
        }
    }

    /// The fingerprint of a text.
    #[tactic(auto, unfolding(crate::specs::Tables::fingerprint_of))]
    fn fingerprint(&self, text: &[u8]) -> u64
        ensures { result ≡ fingerprint_in self.now text.now }
    {
        let mut hasher = self.hasher;
        hasher.write(text);
        hasher.finish()
    }

    /// Gives a text its value, in place of the one that it had. It costs what `get` does, and a copy of the
    /// text.
    pub fn insert(&mut self, text: &[u8], value: V) -> Result<(), NoMemory>
        ensures keyed { (other : List ℕ) → fingerprint_in self.new other ≡ fingerprint_in self.old other }
        ensures ok { OnOk result ((other : List ℕ) → value_in self.new other ≡ (if bytes_eq text.now other then Some value else value_in self.old other)) }
        ensures err { OnErr result ((other : List ℕ) → value_in self.new other ≡ value_in self.old other) }
    {
        let fingerprint = self.fingerprint(text);
        if self.is_taken(fingerprint, text) {
            self.insert_other(text, value)
        } else {
            self.insert_first(fingerprint, text, value)
        }
    }

    /// The same, where another text is the first of its fingerprint.
    fn insert_other(&mut self, text: &[u8], value: V) -> Result<(), NoMemory>
        requires { is_other (row_at self.old (fingerprint_in self.old text.now)) text.now ≡ true }
        ensures hasher { self.new.hasher ≡ self.old.hasher }
        ensures ok { OnOk result ((other : List ℕ) → value_in self.new other ≡ (if bytes_eq text.now other then Some value else value_in self.old other)) }
        ensures err { OnErr result ((other : List ℕ) → value_in self.new other ≡ value_in self.old other) }
    {
        let text = Vec::from_slice(self.alloc, text)?;
        let _old = self.others.insert(text, value)?;
        Ok(())
    }

    /// The same, where no other text is the first of this fingerprint.
    fn insert_first(&mut self, fingerprint: u64, text: &[u8], value: V) -> Result<(), NoMemory>
        requires fingerprint { fingerprint ≡ fingerprint_in self.old text.now }
        requires free { is_other (row_at self.old fingerprint) text.now ≡ false }
        ensures hasher { self.new.hasher ≡ self.old.hasher }
        ensures ok { OnOk result ((other : List ℕ) → value_in self.new other ≡ (if bytes_eq text.now other then Some value else value_in self.old other)) }
        ensures err { OnErr result ((other : List ℕ) → value_in self.new other ≡ value_in self.old other) }
    {
        let text = Vec::from_slice(self.alloc, text)?;
        let _old = self.firsts.insert(fingerprint, TextRow { text, value })?;
        Ok(())
    }
}
