ghost use Rattle.std.specs.Prelude.{◌≡◌, ◌≤◌, [], length, replicate, Ok};
ghost use Rattle.digits.specs.Positional.{bits};
ghost use Rattle.sealing.specs.Masking.{masked, packed_trits};
ghost use Rattle.sealing.specs.Promises.{SealsInOrder};
ghost use Rattle.sealing.specs.Sealed.{seal_answer};

use crate::SealedKey;
use crate::guards::{Scratch, Walkway};
use crate::questions::asked_width;
use crate::records::PACKED;
use digits::{TRIT_WEIGHTS, bit_at};
use keys::{KeyKind, Refusal};
use masks::MaskSource;

/// Seals a value. Its key bytes pass through the scratch, of at least 32 bytes, which comes back zeroed.
pub fn seal<S: MaskSource, K: KeyKind>(
    source: &mut S,
    value: &K,
    scratch: &mut [u8],
) -> Result<SealedKey, Refusal>
    ensures answer { result ≡ seal_answer (S.masks source.old) K.KeyKind.width (length scratch.old) (K.KeyKind.encode value.now) }
    ensures in_order { SealsInOrder K.OrderedKey.order K.OrderedKey.lawful K.KeyKind.encode (S.masks source.old) value.now result }
    ensures wiped { scratch.new ≡ replicate (length scratch.old) 0 }
    ensures same_masks { S.masks source.new ≡ S.masks source.old }
    ensures restarted { S.walked source.new ≡ [] }
{
    let source = Walkway(source);
    let scratch = Scratch(scratch);
    value.is_lawful();
    let width = asked_width::<K>(scratch.0.len())?;
    value.write(scratch.0)?;
    let bytes = seal_bytes(source.0, &scratch.0[..width as usize])?;
    Ok(SealedKey { width, bytes })
}

// The packed trits of key bytes, whose bits the source walks along, the last one excepted.
fn seal_bytes<S: MaskSource>(source: &mut S, key: &[u8]) -> Result<[u8; PACKED], Refusal>
    requires { length key.now ≤ 32 }
    ensures answer { result ≡ Ok (packed_trits (masked (S.masks source.old) [] (bits key.now))) }
    ensures same_masks { S.masks source.new ≡ S.masks source.old }
{
    source.restart();
    let mut trits = [0; PACKED];
    let end = 8 * key.len();
    // the i-th bit stands in byte i / 8 of the key, and its trit in byte i / 5 of the packed ones
    for i in 0..end {
        let bit = bit_at(key, i);
        let trit = (source.mask() + bit as u8) % 3;
        trits[i / 5] += trit * TRIT_WEIGHTS[i % 5];
        if i + 1 < end {
            source.step(bit)?;
        }
    }
    Ok(trits)
}
