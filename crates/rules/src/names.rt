// What the names of a structure begin with (docs/FIELDS.md). How much may be added to it follows from how many bits it has.
ghost use Rattle.std.specs.Prelude.{◌<◌, ◌^◌};

// A word below 2 ^ BITS: 38 for a block with its two indices, 39 with the leaves of a resource, which are three further, 44 with
// a third index of at most 31, 51 with any third index.
#[derive(Clone, Copy)]
pub struct Names<const BITS: usize> {
    pub word: u64,
    ghost word_in: { word < 2 ^ BITS },
}
