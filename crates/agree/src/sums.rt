// The check sum of a lent buffer, over its elements as a call left them.
ghost use Rattle.std.specs.Prelude.{◌≡◌, ◌+◌, ◌%◌, ◌<◌};
ghost use Rattle.agree.specs.Sums.{CheckSum};

// The sum of two numbers of 32 bits, modulo the largest prime that they reach.
fn add(a: u64, e: u64) -> u64
    requires { (a < 4294967296) × (e < 4294967296) }
    ensures { (result ≡ (a + e) % 4294967291) × (result < 4294967291) }
{
    (a + e) % 4294967291
}

// The check sum of numbers of at most 32 bits.
pub(crate) fn check_sum<T: Copy + Into<u32>>(numbers: &[T]) -> u64
    ensures { CheckSum T.converts numbers.now result }
{
    let mut a = 1;
    let mut b = 0;
    for x in numbers {
        let number: u32 = (*x).into();
        a = add(a, number as u64);
        b = add(b, a);
    }
    b * 4294967296 + a
}
