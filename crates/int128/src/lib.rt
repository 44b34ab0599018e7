// Whole numbers of 128 bits, two's complement, in a high and a low half of 64 bits, as C has them. By value, and every result exact:
// each goes by the `i128` that the two halves are.
#![tactic(auto)]

ghost use Rattle.std.specs.Prelude.{◌≡◌, ◌+◌, ◌*◌, ◌<◌, ◌^◌, pos, ◌+ℤ◌, ◌-ℤ◌, ◌*ℤ◌, neg_ℤ, int_lt, unsigned_abs};
ghost use Rattle.int128.specs.Int128.{int128_of, Fits128};
ghost use Rattle.int128.specs.CubicMetres.{half_to_even, cubic_metres_of};

#[derive(Clone, Copy)]
pub struct Int128 {
    pub high: u64,
    pub low: u64,
}

// How many half cubic metres there are in six times a volume that has no sign, and what is left over: 3,000,000,000 is below 2 ^ 32, so
// long division by digits of 32 bits takes two steps. (The quotient of two u128s would be a call from outside, which an archive for C
// has no other need of.)
fn half_metres(six: u128) -> (u64, u64)
    requires { six < 2 ^ 94 }
    ensures { (six ≡ 3000000000 * result.0 + result.1) × (result.1 < 3000000000) }
{
    let high = (six >> 32) as u64;
    let last = high % 3000000000 * 4294967296 + (six % 4294967296) as u64;
    (
        high / 3000000000 * 4294967296 + last / 3000000000,
        last % 3000000000,
    )
}

// Cubic metres of six times a volume that has no sign, rounded to the nearest whole, an exact half to the even one.
fn whole_metres(six: u128) -> u64
    requires { six < 2 ^ 94 }
    ensures value { result ≡ half_to_even six }
    ensures small { result < 2 ^ 63 }
{
    let (halves, rest) = half_metres(six);
    if rest == 0 && halves % 2 == 1 {
        let below = halves / 2;
        below + below % 2
    } else {
        (halves + 1) / 2
    }
}

impl Int128 {
    // The number, as the language has it.
    fn number(self) -> i128
        ensures { result ≡ int128_of self }
    {
        ((u128::from(self.high) << 64) + u128::from(self.low)).cast_signed()
    }

    // The halves of a number.
    fn halves(n: i128) -> Int128
        ensures { int128_of result ≡ n }
    {
        let bits = n.cast_unsigned();
        Int128 {
            high: (bits >> 64) as u64,
            low: (bits % 18446744073709551616) as u64,
        }
    }

    pub fn zero() -> Int128
        ensures { int128_of result ≡ pos 0 }
    {
        Int128 { high: 0, low: 0 }
    }

    pub fn add(self, other: Int128) -> Int128
        requires { Fits128 (int128_of self +ℤ int128_of other) }
        ensures { int128_of result ≡ int128_of self +ℤ int128_of other }
    {
        Int128::halves(self.number() + other.number())
    }

    pub fn sub(self, other: Int128) -> Int128
        requires { Fits128 (int128_of self -ℤ int128_of other) }
        ensures { int128_of result ≡ int128_of self -ℤ int128_of other }
    {
        Int128::halves(self.number() - other.number())
    }

    pub fn neg(self) -> Int128
        requires { Fits128 (neg_ℤ (int128_of self)) }
        ensures { int128_of result ≡ neg_ℤ (int128_of self) }
    {
        Int128::halves(-self.number())
    }

    pub fn is_negative(self) -> bool
        ensures { result ≡ int_lt (int128_of self) (pos 0) }
    {
        self.number() < 0
    }

    pub fn from_i64(x: i64) -> Int128
        ensures { int128_of result ≡ x }
    {
        Int128::halves(i128::from(x))
    }

    // The whole product of two numbers of 64 bits.
    pub fn mul(x: i64, y: i64) -> Int128
        ensures { int128_of result ≡ x *ℤ y }
    {
        Int128::halves(i128::from(x) * i128::from(y))
    }

    // The number in 64 bits.
    pub fn to_i64(self) -> i64
        requires { unsigned_abs (int128_of self) < 2 ^ 63 }
        ensures { result ≡ int128_of self }
    {
        self.number() as i64
    }

    // Cubic metres of six times a volume in cubic millimetres.
    pub fn cubic_metres(self) -> i64
        requires { unsigned_abs (int128_of self) < 2 ^ 94 }
        ensures { result ≡ cubic_metres_of (int128_of self) }
    {
        let six = self.number();
        let metres = whole_metres(six.unsigned_abs()) as i64;
        if six < 0 { -metres } else { metres }
    }
}
