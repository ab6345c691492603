// Whole buffers copied and cleared, and the smaller of two lengths.

#![tactic(auto)]

ghost use Rattle.std.specs.Prelude.{◌≡◌, true, false, min, length, replicate};

// Copies one buffer over another of the same length. Not the library's copy_from_slice, which calls memmove: this loop becomes memcpy, and
// axlebloom.h says that only memcpy and memset are called.
pub fn copy_from_slice<T: Copy>(to: &mut [T], from: &[T])
    requires { length to.old ≡ length from.now }
    ensures len { length to.new ≡ length to.old }
    ensures after { to.new ≡ from.now }
{
    for (i, x) in to.iter_mut().enumerate() {
        *x = from[i];
    }
}

// Copies one buffer over another of the same length; one of another length is left as it is.
pub fn copy<T: Copy>(from: &[T], to: &mut [T])
    ensures to_after { length from.now ≡ length to.old → to.new ≡ from.now }
    ensures to_len_unchanged { length to.new ≡ length to.old }
    ensures to_unchanged { (length from.now ≡ length to.old → ⊥) → to.new ≡ to.old }
{
    if from.len() == to.len() {
        copy_from_slice(to, from);
    }
}

// Sets every element to v.
pub fn set_all<T: Copy>(buffer: &mut [T], v: T)
    ensures { buffer.new ≡ replicate (length buffer.old) v }
{
    for x in buffer.iter_mut() {
        *x = v;
    }
}

// Sets every byte to 0 if the test holds.
pub fn clear_if(test: bool, buffer: &mut [u8])
    ensures buffer_after { test ≡ true → buffer.new ≡ replicate (length buffer.old) 0 }
    ensures buffer_unchanged { test ≡ false → buffer.new ≡ buffer.old }
{
    if test {
        buffer.fill(0);
    }
}

// The smaller of two numbers.
pub fn smaller(a: usize, b: usize) -> usize
    ensures { result ≡ min a b }
{
    a.min(b)
}
