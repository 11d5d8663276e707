// Buffers with what is held of them.
ghost use Rattle.std.specs.Prelude.{◌≤◌};

// The first items of a buffer are held, so many as are counted: in fixed memory what a Vec is on the heap.
#[derive(Drop)]
pub struct Filled<T, const N: usize> {
    all: [T; N],
    count: usize,
    ghost within: { count ≤ N },
}

impl<T: Copy + Default, const N: usize> Default for Filled<T, N> {
    fn default() -> Self {
        Filled {
            all: [T::default(); N],
            count: 0,
        }
    }
}

impl<T: Copy + Default, const N: usize> Filled<T, N> {
    pub fn held(&self) -> &[T] {
        &self.all[..self.count]
    }

    pub fn held_mut(&mut self) -> &mut [T] {
        let count = self.count;
        let all = &mut self.all;
        &mut all[..count]
    }

    // Puts an item at a place of the buffer, if it has that; the item is held once so many are kept.
    // A place of this struct's own buffer, as with a Vec: no place stands beside a lent one.
    pub fn put(&mut self, at: usize, item: T) -> Option<()> {
        *self.all.get_mut(at)? = item;
        Some(())
    }

    // Holds the first so many items of the buffer, or all.
    pub fn keep(&mut self, count: usize) {
        self.count = count.min(N);
    }

    // Holds so many, the new ones zeros, if the buffer has them.
    pub fn resize(&mut self, count: usize) -> Option<()> {
        if N < count {
            return None;
        }
        for item in self.all.iter_mut().take(count).skip(self.count) {
            *item = T::default();
        }
        self.count = count;
        Some(())
    }
}
