// Document 01, "Amplitudes": amplitudes by value, and in lent rows of signed 32-bit numbers, four to a leaf.
// Two coefficients in range may sum to 2,147,483,648, which 32 bits do not hold: sums are made in 64 bits, and then held to the range.
#![tactic(auto)]

ghost use Rattle.std.specs.Prelude.{◌≡◌, cond, ◌+◌, ◌*◌, ◌≤◌, nat_abs, neg_ℤ, ◌+ℤ◌, length};
ghost use Rattle.amplitude.specs.Amp.{amp, timesω, ω^, ◌⊕◌, ◌⊖◌, most, in_range};
ghost use Rattle.leafrows.specs.Value.{amp_is, InRange, Tested};
ghost use Rattle.leafrows.specs.Row.{row_amp, row_set};

use tables::put_leaf;

// "a + bω + cω² + dω³"
#[derive(Clone, Copy)]
pub struct Amplitude {
    pub a: i32,
    pub b: i32,
    pub c: i32,
    pub d: i32,
}

// The amplitude in row j.
pub fn amplitude_at(coefs: &[i32], j: usize) -> Amplitude
    requires { j * 4 + 4 ≤ length coefs.now }
    ensures { amp_is result ≡ row_amp coefs.now j }
{
    let at = j * 4;
    Amplitude {
        a: coefs[at],
        b: coefs[at + 1],
        c: coefs[at + 2],
        d: coefs[at + 3],
    }
}

// Row j becomes the amplitude. No other number changes.
pub fn store(coefs: &mut [i32], j: usize, x: Amplitude)
    requires { j * 4 + 4 ≤ length coefs.old }
    ensures { coefs.new ≡ row_set coefs.old j (amp_is x) }
{
    put_leaf(coefs, j, [x.a, x.b, x.c, x.d]);
}

// The negative of a coefficient in range: it is in range too.
fn negated(z: i32) -> i32
    requires { nat_abs z ≤ most }
    ensures { result ≡ neg_ℤ z }
{
    -z
}

// "Times ω: (a,b,c,d) becomes (−d,a,b,c)."
fn times_omega(x: Amplitude) -> Amplitude
    requires { InRange x }
    ensures { amp_is result ≡ timesω (amp_is x) }
{
    Amplitude {
        a: negated(x.d),
        b: x.a,
        c: x.b,
        d: x.c,
    }
}

// Times ω^j.
pub fn turned(x: Amplitude, j: u8) -> Amplitude
    requires { InRange x }
    ensures { (amp_is result ≡ ω^ j (amp_is x)) × InRange result }
{
    let mut product = x;
    for _ in 0..j {
        product = times_omega(product);
    }
    product
}

// x + y, which 64 bits hold for any two numbers of 32.
fn plus(x: i32, y: i32) -> i64
    ensures { result ≡ x +ℤ y }
{
    i64::from(x) + i64::from(y)
}

// A number as a coefficient, if it is in range, both ends among it.
fn coefficient(z: i64) -> Option<i32>
    ensures { result ≡ cond (in_range z) (Some z) None }
{
    if !(-1073741824..=1073741824).contains(&z) {
        return None;
    }
    // Not try_from: the test above is the definition's, and its answer is the one that counts.
    Some(z as i32)
}

// Four numbers as an amplitude, if all of them are in range.
fn tested(a: i64, b: i64, c: i64, d: i64) -> Option<Amplitude>
    ensures { Tested (amp a b c d) result }
{
    Some(Amplitude {
        a: coefficient(a)?,
        b: coefficient(b)?,
        c: coefficient(c)?,
        d: coefficient(d)?,
    })
}

// A + B, if it is in range.
pub fn sum(x: Amplitude, y: Amplitude) -> Option<Amplitude>
    ensures { Tested (amp_is x ⊕ amp_is y) result }
{
    tested(
        plus(x.a, y.a),
        plus(x.b, y.b),
        plus(x.c, y.c),
        plus(x.d, y.d),
    )
}

// A − B, if it is in range: since ω⁴ = −1 it is A + ω⁴B.
pub fn difference(x: Amplitude, y: Amplitude) -> Option<Amplitude>
    requires { InRange y }
    ensures { Tested (amp_is x ⊖ amp_is y) result }
{
    sum(x, turned(y, 4))
}
