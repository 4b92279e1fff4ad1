//! Cases that were worked by hand, proved of the definitions that all contracts rest on, and small clients of the
//! cipher, proved from its contracts alone.

#![tactic(auto)]

ghost use Rattle.std.specs.Prelude.{◌≡◌, Ok};
ghost use Rattle.digits.specs.Orders.{number_order};
ghost use Rattle.keys.specs.Numbers.{count};
ghost use Rattle.cases.specs.Worked.{WorkedCases};

use keys::{Count, Refusal};
use masks::{HashSource, TreeSource};
use sealing::{compare, open, seal};
use std::cmp::Ordering;

/// Does nothing: that it is proved says that every row of the table holds.
pub fn worked_cases_hold()
    ensures { WorkedCases }
{}

/// Seals a count and opens it again: whatever the secret, the count comes back.
pub fn count_comes_back(secret: [u8; 16], number: u32) -> Result<Count, Refusal>
    ensures { result ≡ Ok (count number) }
{
    let mut source = HashSource::new(secret);
    let mut scratch = [0; 32];
    let sealed = seal(&mut source, &Count(number), &mut scratch)?;
    open(&mut source, &sealed, &mut scratch)
}

/// Seals two counts and compares the sealed keys: whatever the secret, they compare as the counts do.
pub fn counts_keep_their_order(
    secret: [u8; 16],
    first: u32,
    second: u32,
) -> Result<Ordering, Refusal>
    ensures { result ≡ Ok (number_order first second) }
{
    let mut source = TreeSource::new(secret);
    let mut scratch = [0; 32];
    let a = seal(&mut source, &Count(first), &mut scratch)?;
    let b = seal(&mut source, &Count(second), &mut scratch)?;
    Ok(compare(&a, &b).order)
}
