// The sign of x * y + z * w, which can pass 2^98, in 64-bit numbers: by digits base 2^26.
ghost use Rattle.std.specs.Prelude.{◌≡◌, ◌≤◌, nat_abs, ◌+ℤ◌, ◌*ℤ◌};
ghost use Rattle.math.specs.Wide.{SplitOf, TwoDigits, sgn, high_of, middle_of, low_of, total_of, AtMost51, wide_of};

// hi * 2^26 + lo, where lo is below 2^26 in absolute value.
#[derive(Clone, Copy)]
pub struct Digits {
    pub hi: i64,
    pub lo: i64,
}

// The two digits of x.
pub fn split(x: i64) -> Digits
    requires { nat_abs x ≤ 36028797018963968 }
    ensures { SplitOf x result }
{
    let hi = x >> 26;
    let lo = x - hi * 67108864;
    Digits { hi, lo }
}

// The digits of x * y + z * w, before any carry: the high one,
pub fn high(x: Digits, y: Digits, z: Digits, w: Digits) -> i64
    requires { TwoDigits x × TwoDigits y × TwoDigits z × TwoDigits w }
    ensures { result ≡ high_of x y z w }
{
    x.hi * y.hi + z.hi * w.hi
}

// the middle one,
pub fn middle(x: Digits, y: Digits, z: Digits, w: Digits) -> i64
    requires { TwoDigits x × TwoDigits y × TwoDigits z × TwoDigits w }
    ensures { result ≡ middle_of x y z w }
{
    x.hi * y.lo + x.lo * y.hi + (z.hi * w.lo + z.lo * w.hi)
}

// and the low one.
pub fn low(x: Digits, y: Digits, z: Digits, w: Digits) -> i64
    requires { TwoDigits x × TwoDigits y × TwoDigits z × TwoDigits w }
    ensures { result ≡ low_of x y z w }
{
    x.lo * y.lo + z.lo * w.lo
}

// A number with the sign of hi * 2^52 + mid * 2^26 + lo: the carries make h, below which stand two digits that together
// are less than 1 of h.
pub fn carried(hi: i64, mid: i64, lo: i64) -> i64
    requires { (nat_abs hi ≤ 36028797018963968) × (nat_abs mid ≤ 18014398509481984) × (nat_abs lo ≤ 18014398509481984) }
    ensures { sgn result ≡ sgn (wide_of hi mid lo) }
{
    let l = split(lo);
    let m = split(mid + l.hi);
    let h = hi + m.hi;
    if h != 0 { h } else { m.lo * 67108864 + l.lo }
}

// The sum of the magnitudes.
#[tactic(auto, unfolding(crate::specs::Wide::total_of))]
pub fn magnitudes(x: i64, y: i64, z: i64, w: i64) -> u64
    requires { AtMost51 x × AtMost51 y × AtMost51 z × AtMost51 w }
    ensures { result ≡ total_of x y z w }
{
    x.unsigned_abs() + y.unsigned_abs() + (z.unsigned_abs() + w.unsigned_abs())
}

// A number with the sign of x * y + z * w, where total is the sum of their magnitudes. The middle and the low digits
// add less than total / 2^26 + 6 to the high one, so mostly they are left out.
pub fn sum_sign_wide(x: i64, y: i64, z: i64, w: i64, total: u64) -> i64
    requires { AtMost51 x × AtMost51 y × AtMost51 z × AtMost51 w × (total ≡ total_of x y z w) }
    ensures { sgn result ≡ sgn (x *ℤ y +ℤ z *ℤ w) }
{
    let a = split(x);
    let b = split(y);
    let c = split(z);
    let d = split(w);
    let hi = high(a, b, c, d);
    if hi.unsigned_abs() > (total >> 26) + 6 {
        return hi;
    }
    carried(hi, middle(a, b, c, d), low(a, b, c, d))
}

// A number with the sign of x * y + z * w. Where the four are small the sum itself fits.
pub fn sum_sign(x: i64, y: i64, z: i64, w: i64) -> i64
    requires { AtMost51 x × AtMost51 y × AtMost51 z × AtMost51 w }
    ensures { sgn result ≡ sgn (x *ℤ y +ℤ z *ℤ w) }
{
    let total = magnitudes(x, y, z, w);
    if total > 2147483647 {
        return sum_sign_wide(x, y, z, w, total);
    }
    x * y + z * w
}
