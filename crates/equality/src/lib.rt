// Document 01, "Equal": two amplitudes are compared across k. The one with the smaller k is first multiplied by √2 once per unit of
// difference, in 64 bits: two such steps are one doubling, so that 64 from a coefficient in range reach at most 2^62.
#![tactic(auto)]

ghost use Rattle.std.specs.Prelude.{◌≡◌, ◌-◌, ◌≤◌, ◌+ℤ◌, ◌-ℤ◌, nat_abs};
ghost use Rattle.amplitude.specs.Amp.{times√2, ◌⊕◌, √2^, same_z, same_a};
ghost use Rattle.amplitude.specs.Leaf.{leaf, same, k_most};
ghost use Rattle.leafrows.specs.Value.{amp_is, InRange, Within};
ghost use Rattle.equality.specs.Wide.{wide_is, wide_most};

use leafrows::Amplitude;

// Four numbers of 64 bits. An amplitude has four of 32: what is stored and what is compared are two types with a From, since one generic type would need
// a From between two of its own instances.
#[derive(Clone, Copy, PartialEq, Eq)]
pub struct Wide {
    pub a: i64,
    pub b: i64,
    pub c: i64,
    pub d: i64,
}

// An amplitude in 64 bits.
impl From<Amplitude> for Wide {
    ghost from_gives = { λ x w. wide_is w ≡ amp_is x };

    fn from(x: Amplitude) -> Self {
        Wide {
            a: i64::from(x.a),
            b: i64::from(x.b),
            c: i64::from(x.c),
            d: i64::from(x.d),
        }
    }
}

// x + y, where the caller knows that it fits.
fn plus(x: i64, y: i64) -> i64
    requires { nat_abs (x +ℤ y) ≤ wide_most }
    ensures { result ≡ x +ℤ y }
{
    x + y
}

// x − y, where the caller knows that it fits.
fn minus(x: i64, y: i64) -> i64
    requires { nat_abs (x -ℤ y) ≤ wide_most }
    ensures { result ≡ x -ℤ y }
{
    x - y
}

// "Times √2: (b−d, a+c, b+d, c−a)."
fn times_root(x: Wide) -> Wide
    requires { Within wide_most (times√2 (wide_is x)) }
    ensures { wide_is result ≡ times√2 (wide_is x) }
{
    Wide {
        a: minus(x.b, x.d),
        b: plus(x.a, x.c),
        c: plus(x.b, x.d),
        d: minus(x.c, x.a),
    }
}

// "Twice is doubling."
fn doubled(x: Wide) -> Wide
    requires { Within wide_most (wide_is x ⊕ wide_is x) }
    ensures { wide_is result ≡ wide_is x ⊕ wide_is x }
{
    Wide {
        a: plus(x.a, x.a),
        b: plus(x.b, x.b),
        c: plus(x.c, x.c),
        d: plus(x.d, x.d),
    }
}

// Times √2^d: "Double once for each two units of difference, with at most one single step."
pub fn raised(x: Amplitude, d: u8) -> Wide
    requires { InRange x × (d ≤ k_most) }
    ensures { wide_is result ≡ √2^ d (amp_is x) }
{
    let mut product = Wide::from(x);
    for _ in 0..d / 2 {
        product = doubled(product);
    }
    if d % 2 == 1 {
        times_root(product)
    } else {
        product
    }
}

// "the same four numbers"
#[tactic(auto, using(crate::proofs::Bits::same_int))]
fn same_numbers(x: Wide, y: Wide) -> bool
    ensures { result ≡ same_a (wide_is x) (wide_is y) }
{
    x == y
}

// The leaves with the numbers x at k, and y at l, are equal.
pub fn same(k: u8, x: Amplitude, l: u8, y: Amplitude) -> bool
    requires { (k ≤ k_most) × InRange x × (l ≤ k_most) × InRange y }
    ensures { result ≡ same (leaf k (amp_is x)) (leaf l (amp_is y)) }
{
    same_numbers(
        raised(x, l.saturating_sub(k)),
        raised(y, k.saturating_sub(l)),
    )
}
