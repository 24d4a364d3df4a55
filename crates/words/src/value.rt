// What a row and a point carry, added modulo 2^64.
ghost use Rattle.std.specs.Prelude.{◌≡◌, ◌+◌, ◌*◌, ◌%◌, ◌^◌, ◌≤◌, length, if◌then◌else◌, nat_eq};
ghost use Rattle.words.specs.Value.{zero, plus, minus, value_at, encode_value, value_words, line, line_at};
ghost use Rattle.words.specs.Overwrite.{overwrite};

// A count and a weight sum. Whoever uses a value knows only that it has a zero, a sum and a difference.
#[derive(Clone, Copy)]
pub struct Value {
    pub count: u64,
    pub sum: u64,
}

impl Value {
    // The words that a value takes.
    pub const WORDS: usize = 2;

    // The value of nothing. It has this name, and not the derived default's, since the definitions of sums begin at `zero`: the default would be a second name for it.
    pub fn zero() -> Value
        ensures { result ≡ zero }
    {
        Value { count: 0, sum: 0 }
    }

    // Both values together. It is not `+`, which on words says that nothing wraps, and the definitions of sums say `plus`.
    #[tactic(auto, unfolding(crate::specs::Value::plus))]
    pub fn plus(self, other: Value) -> Value
        ensures { result ≡ plus self other }
    {
        Value {
            count: self.count.wrapping_add(other.count),
            sum: self.sum.wrapping_add(other.sum),
        }
    }

    // This value without the other one: what is taken away from less wraps, so that adding it again gives this value back.
    #[tactic(auto, unfolding(crate::specs::Value::minus))]
    pub fn minus(self, other: Value) -> Value
        ensures { result ≡ minus self other }
    {
        Value {
            count: self.count.wrapping_sub(other.count),
            sum: self.sum.wrapping_sub(other.sum),
        }
    }

    // This value once, or no times. A loop that adds some of many values takes this with a factor that it reckons without a comparison: of
    // a choice the compiler would make a branch, which the processor has to guess for each of them.
    pub fn times(self, factor: u64) -> Value
        requires { factor ≤ 1 }
        ensures { result ≡ (if nat_eq factor 1 then self else zero) }
    {
        Value {
            count: self.count * factor,
            sum: self.sum * factor,
        }
    }

    // In the tree of time a value is a line over ticks: its two words are the factor of t and the constant.
    pub fn line(factor: u64, constant: u64) -> Value
        ensures { result ≡ line factor constant }
    {
        Value {
            count: factor,
            sum: constant,
        }
    }

    // This line at a tick: factor × t + constant.
    #[tactic(auto, unfolding(crate::specs::Value::line_at))]
    pub fn at(self, t: u32) -> u64
        ensures { result ≡ line_at self t }
    {
        self.count.wrapping_mul(t as u64).wrapping_add(self.sum)
    }

    // The value in the words from `at` on.
    pub fn read(words: &[u64], at: usize) -> Value
        requires { at + value_words ≤ length words.now }
        ensures { result ≡ value_at words.now at }
    {
        Value {
            count: words[at],
            sum: words[at + 1],
        }
    }

    // Writes the value into the words from `at` on.
    pub fn write(self, words: &mut [u64], at: usize)
        requires { at + value_words ≤ length words.old }
        ensures { words.new ≡ overwrite words.old at (encode_value self) }
    {
        words[at] = self.count;
        words[at + 1] = self.sum;
    }
}
