ghost use Rattle.std.specs.Prelude.{◌≡◌, ◌*◌, ◌<◌, ◌≤◌, [], length, take, replicate};
ghost use Rattle.digits.specs.Positional.{trits};
ghost use Rattle.sealing.specs.Masking.{unmasked};
ghost use Rattle.sealing.specs.Opened.{open_answer, found_answer, FoundLeft, trit_answer};
ghost use Rattle.sealing.specs.Promises.{OpensExactly};

use crate::SealedKey;
use crate::guards::{Scratch, Walkway};
use crate::questions::asked_width;
use crate::records::PACKED;
use digits::trit_at;
use keys::{KeyKind, Refusal};
use masks::MaskSource;

/// Opens a sealed key. Its key bytes pass through the scratch, of at least 32 bytes, which comes back zeroed.
pub fn open<S: MaskSource, K: KeyKind>(
    source: &mut S,
    key: &SealedKey,
    scratch: &mut [u8],
) -> Result<K, Refusal>
    ensures answer { result ≡ open_answer (S.masks source.old) K.KeyKind.width K.KeyKind.decode (length scratch.old) key.now }
    ensures exactly { OpensExactly K.KeyKind.width K.OrderedKey.lawful K.KeyKind.encode (S.masks source.old) (length scratch.old) key.now result }
    ensures wiped { scratch.new ≡ replicate (length scratch.old) 0 }
    ensures same_masks { S.masks source.new ≡ S.masks source.old }
    ensures restarted { S.walked source.new ≡ [] }
{
    let source = Walkway(source);
    let scratch = Scratch(scratch);
    let width = asked_width::<K>(scratch.0.len())?;
    if key.width != width {
        return Err(Refusal::OtherWidth);
    }
    let bytes = &mut *scratch.0;
    open_bytes(source.0, &key.bytes, &mut bytes[..width as usize])?;
    K::read(bytes)
}

// Finds the bits behind the trits and writes them into the key bytes. The source walks along, the last bit excepted.
fn open_bytes<S: MaskSource>(
    source: &mut S,
    sealed: &[u8; PACKED],
    key: &mut [u8],
) -> Result<(), Refusal>
    requires { length key.old ≤ 32 }
    ensures answer { result ≡ found_answer (unmasked (S.masks source.old) [] (take (8 * length key.old) (trits sealed.now))) }
    ensures left { FoundLeft (unmasked (S.masks source.old) [] (take (8 * length key.old) (trits sealed.now))) key.new }
    ensures same_masks { S.masks source.new ≡ S.masks source.old }
{
    source.restart();
    let end = 8 * key.len();
    key.fill(0);
    for i in 0..end {
        let bit = bit_behind(trit_at(sealed, i), source.mask())?;
        key[i / 8] += (bit as u8) << (7 - i % 8);
        if i + 1 < end {
            source.step(bit)?;
        }
    }
    Ok(())
}

// The bit that makes this trit under this mask.
fn bit_behind(trit: u8, mask: u8) -> Result<bool, Refusal>
    requires { mask < 3 }
    ensures { result ≡ trit_answer trit mask }
{
    if trit == mask {
        Ok(false)
    } else if trit == (mask + 1) % 3 {
        Ok(true)
    } else {
        Err(Refusal::OtherSecret)
    }
}
