//! SipHash-2-4 (Aumasson and Bernstein, 2012): a 64-bit hash of a message under a secret key of 16 bytes.

#![tactic(auto)]

ghost use Rattle.std.specs.Prelude.{◌≡◌, ◌+◌, ◌*◌, ◌%◌, ◌^◌, ◌<◌, fold, length, reverse};
ghost use Rattle.siphash.specs.SipHash.{little_endian, read_byte, word_bytes, sip_round, initialize, compress, finalize, siphash};

/// The four words that the hash mixes.
#[derive(Clone, Copy)]
struct State {
    v0: u64,
    v1: u64,
    v2: u64,
    v3: u64,
}

impl State {
    /// The state before the first word of the message. The constants spell
    /// "somepseudorandomlygeneratedbytes"; all they do is make the four words start out different.
    fn new(key: &[u8; 16]) -> State
        ensures { result ≡ initialize key.now }
    {
        let (words, _) = key.as_chunks::<8>();
        let k0 = u64::from_le_bytes(words[0]);
        let k1 = u64::from_le_bytes(words[1]);
        State {
            v0: k0 ^ 0x736f6d6570736575,
            v1: k1 ^ 0x646f72616e646f6d,
            v2: k0 ^ 0x6c7967656e657261,
            v3: k1 ^ 0x7465646279746573,
        }
    }

    /// One SipRound.
    fn round(self) -> State
        ensures { result ≡ sip_round self }
    {
        let State { v0, v1, v2, v3 } = self;
        let v0 = v0.wrapping_add(v1);
        let v1 = v1.rotate_left(13) ^ v0;
        let v0 = v0.rotate_left(32);
        let v2 = v2.wrapping_add(v3);
        let v3 = v3.rotate_left(16) ^ v2;
        let v0 = v0.wrapping_add(v3);
        let v3 = v3.rotate_left(21) ^ v0;
        let v2 = v2.wrapping_add(v1);
        let v1 = v1.rotate_left(17) ^ v2;
        let v2 = v2.rotate_left(32);
        State { v0, v1, v2, v3 }
    }

    /// Mixes one word of the message in.
    fn compress(self, word: u64) -> State
        ensures { result ≡ compress word self }
    {
        let mixed = State {
            v3: self.v3 ^ word,
            ..self
        };
        let after = mixed.round().round();
        State {
            v0: after.v0 ^ word,
            ..after
        }
    }

    /// The hash, once the whole message has been mixed in.
    fn finalize(self) -> u64
        ensures { result ≡ finalize self }
    {
        let mixed = State {
            v2: self.v2 ^ 0xff,
            ..self
        };
        let after = mixed.round().round().round().round();
        (after.v0 ^ after.v1) ^ (after.v2 ^ after.v3)
    }
}

// Mixes whole words in, one after the other.
fn compress_words(state: State, words: &[[u8; 8]]) -> State
    ensures { result ≡ fold (λ s word. compress (little_endian word) s) state words.now }
{
    words.iter().fold(state, |state, word| {
        state.compress(u64::from_le_bytes(*word))
    })
}

// Reads a number from its top byte down. What passes 64 bits is lost; of at most seven bytes nothing is.
fn read_down(bytes: &[u8]) -> u64
    ensures { result ≡ fold read_byte 0 (reverse bytes.now) }
{
    bytes.iter().rev().fold(0, |number: u64, byte| {
        number.wrapping_mul(256).wrapping_add(u64::from(*byte))
    })
}

/// The word that ends every message: the bytes after its last whole word, at most seven of them,
/// and the length modulo 256 as the top byte, so that trailing zeros count.
fn last_word(rest: &[u8], len: usize) -> u64
    requires { length rest.now < 8 }
    ensures { result ≡ (len % 256) * 2 ^ 56 + little_endian rest.now }
{
    (len % 256) as u64 * (1 << 56) + read_down(rest)
}

/// SipHash-2-4 of the message under the key.
pub fn hash(key: &[u8; 16], message: &[u8]) -> u64
    ensures { result ≡ siphash key.now message.now }
{
    let (words, rest) = message.as_chunks::<8>();
    let state = compress_words(State::new(key), words);
    state.compress(last_word(rest, message.len())).finalize()
}

/// SipHash-2-4 of the message under the key, as eight bytes, the least significant byte first.
pub fn hash_bytes(key: &[u8; 16], message: &[u8]) -> [u8; 8]
    ensures { result ≡ word_bytes (siphash key.now message.now) }
{
    hash(key, message).to_le_bytes()
}
