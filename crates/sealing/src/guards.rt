//! What a call was lent, kept for the time of the call: however it ends, dropping these leaves nothing behind.

ghost use Rattle.std.specs.Prelude.{◌≡◌, [], length, replicate};

use masks::MaskSource;

/// Scratch that key bytes pass through: dropping this writes zeros over all of it.
pub(crate) struct Scratch<'a>(pub(crate) &'a mut [u8]);

impl Drop for Scratch<'_> {
    fn drop(self)
        ensures { self.exit.0.now ≡ replicate (length self.entry.0.now) 0 }
    {
        let Scratch(bytes) = self;
        bytes.fill(0);
    }
}

/// A mask source that is walked along: dropping this restarts it.
pub(crate) struct Walkway<'a, S: MaskSource>(pub(crate) &'a mut S);

impl<S: MaskSource> Drop for Walkway<'_, S> {
    fn drop(self)
        ensures same_masks { S.masks self.exit.0.now ≡ S.masks self.entry.0.now }
        ensures restarted { S.walked self.exit.0.now ≡ [] }
    {
        let Walkway(source) = self;
        source.restart();
    }
}
