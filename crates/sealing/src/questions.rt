ghost use Rattle.std.specs.Prelude.{◌≡◌, Ok};
ghost use Rattle.sealing.specs.Sealed.{cipher_asked};

use keys::{KeyKind, Refusal, is_served};

// The scratch that every call asks for: it holds the key bytes of the widest kind.
const SCRATCH: usize = 32;

/// The width of a kind, once the two questions are answered that sealing and opening begin with.
pub(crate) fn asked_width<K: KeyKind>(scratch: usize) -> Result<u8, Refusal>
    ensures { result ≡ cipher_asked K.KeyKind.width scratch (Ok K.KeyKind.width) }
{
    let width = K::width();
    if !is_served(width) {
        Err(Refusal::KindWidth)
    } else if scratch < SCRATCH {
        Err(Refusal::ShortBuffer)
    } else {
        Ok(width)
    }
}
