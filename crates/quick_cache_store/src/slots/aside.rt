//! What a look-up does not read of an entry.
ghost use Rattle.std.specs.Prelude.{◌≡◌};
ghost use Rattle.quick_cache_store.specs.Stored.{weight_by, reads_by};

/// What stands for a weight in a slot that has no room for it.
pub(crate) const HEAVY: u16 = 65535;

/// What stands beside the slot of an entry.
#[derive(Clone, Copy)]
pub(crate) struct Aside {
    pub(crate) hash: u64,
    // What an item weighs, where its slot has no room for that.
    pub(crate) weight: u64,
    // The reads of an item but for those that its slot counts.
    pub(crate) reads: u64,
}

impl Aside {
    /// Of an entry under that hash, which no item is.
    #[inline(always)]
    pub(crate) fn new(hash: u64) -> Self
        ensures { result ≡ record { hash = hash; weight = 0; reads = 0 } }
    {
        Aside {
            hash,
            weight: 0,
            reads: 0,
        }
    }

    /// Keeps a weight where a slot has no room for it, and answers what the slot has in its place.
    #[inline(always)]
    pub(crate) fn keep_weight(&mut self, weight: u64) -> u16
        ensures weight { weight_by result self.new ≡ weight }
        ensures same { self.new ≡ record self.old { weight = self.new.weight } }
    {
        if weight < u64::from(HEAVY) {
            return weight as u16;
        }
        self.weight = weight;
        HEAVY
    }

    /// The weight that stands so in a slot.
    #[inline(always)]
    pub(crate) fn weight_by(&self, small: u16) -> u64
        ensures { result ≡ weight_by small self.now }
    {
        if small == HEAVY {
            self.weight
        } else {
            u64::from(small)
        }
    }

    /// All reads, where the slot counts so many.
    #[inline(always)]
    pub(crate) fn reads_by(&self, late: u16) -> u64
        ensures { result ≡ reads_by late self.now }
    {
        self.reads.saturating_add(u64::from(late))
    }
}
