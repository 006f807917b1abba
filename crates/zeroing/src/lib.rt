// Words that become 0: a whole slice of them, or of numbers of the page table, and a part of a slice,
// as an element of the arena or the slots of a stack.
#![tactic(auto)]

ghost use Rattle.std.specs.Prelude.{◌≡◌, ◌+◌, ◌≤◌, length, replicate};
ghost use Rattle.model.specs.Memory.{put_words};

// What a lent slice is of: words, and the page table's numbers.
pub trait HasZero: Copy {
    ghost ZERO: { Self };

    const ZERO: Self;
}

impl HasZero for u64 {
    ghost ZERO = { 0 };

    const ZERO: u64 = 0;
}

impl HasZero for u32 {
    ghost ZERO = { 0 };

    const ZERO: u32 = 0;
}

// Every word, or number, becomes 0. Not by the library's fill: it asks for a clone that cannot fail.
pub fn zero<T: HasZero>(ws: &mut [T])
    ensures { ws.new ≡ replicate (length ws.old) T.ZERO }
{
    for w in ws.iter_mut() {
        *w = T::ZERO;
    }
}

// The n words from the one at `first` on become 0.
pub fn zero_part(ws: &mut [u64], first: usize, n: usize)
    requires { first + n ≤ length ws.old }
    ensures { ws.new ≡ put_words first n (λ v. 0) ws.old }
{
    let end = first + n;
    zero(&mut ws[first..end]);
}
