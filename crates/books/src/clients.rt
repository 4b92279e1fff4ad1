ghost use Rattle.std.specs.Prelude.{◌≡◌, Some, Ok, Err};
ghost use Rattle.books.specs.Plain.{entry};
ghost use Rattle.keys.specs.declared.refusals.Refusal.TheVariants.{NoSlots, KeyHeld, BookFull, KeyNotHeld};

use crate::{Book, Entry, Row};
use keys::{Count, Refusal};

/// What the calls of `row_of_three` answered.
#[derive(Drop)]
pub struct RowAnswers {
    pub added: Result<(), Refusal>,
    pub again: Result<(), Refusal>,
    pub full: Result<(), Refusal>,
    pub taken: Result<u32, Refusal>,
    pub missing: Result<u32, Refusal>,
    pub found: Result<Option<u32>, Refusal>,
    pub from: Result<Option<Entry<Count>>, Refusal>,
    pub after: Result<Option<Entry<Count>>, Refusal>,
    pub left: u32,
    pub room: u32,
}

/// A few calls on a row of three slots; what they answer is known from the contracts alone.
pub fn row_of_three() -> RowAnswers
    ensures added { result.added ≡ Ok tt }
    ensures again { result.again ≡ Err KeyHeld }
    ensures full { result.full ≡ Err BookFull }
    ensures taken { result.taken ≡ Ok 2 }
    ensures missing { result.missing ≡ Err KeyNotHeld }
    ensures found { result.found ≡ Ok (Some 3) }
    ensures from { result.from ≡ Ok (Some (entry (record { 0 = 10 }) 1)) }
    ensures after { result.after ≡ Ok (Some (entry (record { 0 = 30 }) 3)) }
    ensures left { result.left ≡ 2 }
    ensures room { result.room ≡ 3 }
{
    let mut memory = [Entry {
        key: Count(0),
        ticket: 0,
    }; 3];
    let mut row = Row::new(&mut memory);
    let added = row.add(&Count(20), 2);
    let _ = row.add(&Count(10), 1);
    let again = row.add(&Count(20), 9);
    let _ = row.add(&Count(30), 3);
    let full = row.add(&Count(40), 4);
    let taken = row.take(&Count(20));
    let missing = row.take(&Count(20));
    let found = row.find(&Count(30));
    let from = row.seek_from(&Count(10));
    let after = row.seek_after(&Count(10));
    RowAnswers {
        added,
        again,
        full,
        taken,
        missing,
        found,
        from,
        after,
        left: row.count(),
        room: row.capacity(),
    }
}

/// A find in a row over no memory: declined, as every call on it.
pub fn row_of_none() -> Result<Option<u32>, Refusal>
    ensures { result ≡ Err NoSlots }
{
    let mut memory: [Entry<Count>; 0] = [];
    let mut row = Row::new(&mut memory);
    row.find(&Count(10))
}
