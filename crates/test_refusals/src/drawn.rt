//! Many numbers in one, so that two of them tell whether the many were the same.

/// Numbers that were drawn together in their order.
#[derive(Default, Clone, Copy, PartialEq)]
pub struct Drawn {
    pub sum: u64,
}

impl Drawn {
    /// Draws more numbers in.
    pub fn add(&mut self, numbers: &[u64]) {
        for number in numbers {
            self.sum = self
                .sum
                .wrapping_mul(1000003)
                .wrapping_add(*number)
                .rotate_left(7);
        }
    }

    /// These numbers alone.
    pub fn of(numbers: &[u64]) -> Drawn {
        let mut drawn = Drawn::default();
        drawn.add(numbers);
        drawn
    }
}
