ghost use Rattle.std.specs.Prelude.{◌≡◌, ℕ, List, length, Option as TheOption};
ghost use Rattle.books.specs.Calls.{Call, Add, Take, Find, SeekFrom, SeekAfter, Answer, Added, Taken, Found, Sought};
ghost use Rattle.books.specs.Meaning.{Rule};

use crate::Entry;
use keys::{OrderedKey, Refusal};

/// A book of an ordered key kind: pairs of key and ticket, none when new, and a capacity below 2^31.
///
/// In good order, when each key is less than the next and all keys, with the call's, lie in one family, every answer is
/// the plain book's. Out of good order a key may stand twice: then an answer is a refusal, none or a pair held, and
/// `add` and `take` still move exactly one pair or refuse.
pub trait Book<K: OrderedKey> {
    // what a book is, and which models a book can have
    ghost Model: { Type 0 };

    ghost model: { Self → Model };

    ghost sound: { Model → Type 0 };

    // the pairs of a model, in order; a key that cannot be read is none
    ghost pairs: { Model → List (TheOption K × ℕ) };

    // how many pairs there can be
    ghost room: { Model → ℕ };

    // what a call answers and leaves
    ghost step: { Model → Call K → Answer K × Model };

    /// Does nothing: it says what the calls of this kind of book mean.
    fn rule(&self)
        ensures { Rule K.OrderedKey sound pairs room step (model self.now) };

    /// Puts a pair in its place.
    fn add(&mut self, key: &K, ticket: u32) -> Result<(), Refusal>
        ensures lawful { K.OrderedKey.lawful key.now }
        ensures answer { Added result ≡ (step (model self.old) (Add key.now ticket)).0 }
        ensures left { model self.new ≡ (step (model self.old) (Add key.now ticket)).1 };

    /// Removes the pair of a key, and answers its ticket.
    fn take(&mut self, key: &K) -> Result<u32, Refusal>
        ensures lawful { K.OrderedKey.lawful key.now }
        ensures answer { Taken result ≡ (step (model self.old) (Take key.now)).0 }
        ensures left { model self.new ≡ (step (model self.old) (Take key.now)).1 };

    /// The ticket of a key, or that there is none.
    fn find(&mut self, key: &K) -> Result<Option<u32>, Refusal>
        ensures lawful { K.OrderedKey.lawful key.now }
        ensures answer { Found result ≡ (step (model self.old) (Find key.now)).0 }
        ensures left { model self.new ≡ (step (model self.old) (Find key.now)).1 };

    /// The pair with the least key not below `key`, or none.
    fn seek_from(&mut self, key: &K) -> Result<Option<Entry<K>>, Refusal>
        ensures lawful { K.OrderedKey.lawful key.now }
        ensures answer { Sought result ≡ (step (model self.old) (SeekFrom key.now)).0 }
        ensures left { model self.new ≡ (step (model self.old) (SeekFrom key.now)).1 };

    /// The pair with the least key above `key`, or none.
    fn seek_after(&mut self, key: &K) -> Result<Option<Entry<K>>, Refusal>
        ensures lawful { K.OrderedKey.lawful key.now }
        ensures answer { Sought result ≡ (step (model self.old) (SeekAfter key.now)).0 }
        ensures left { model self.new ≡ (step (model self.old) (SeekAfter key.now)).1 };

    /// How many pairs there are.
    fn count(&self) -> u32
        ensures { result ≡ length (pairs (model self.now)) };

    /// How many pairs there can be.
    fn capacity(&self) -> u32
        ensures { result ≡ room (model self.now) };
}
