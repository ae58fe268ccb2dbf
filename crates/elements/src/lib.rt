// Document 02, request 10: the products of the 24 Clifford elements and their words in H and S, as tables. The proofs hold each table to its rule by
// one computed test. Both functions ask for numbers below 24.
#![tactic(auto)]

mod products;
mod words;

ghost use Rattle.std.specs.Prelude.{◌≡◌, ◌++◌, ◌<◌, ◌≤◌, length, drop};
ghost use Rattle.cliffords.specs.Elements.{elements_most, then};
ghost use Rattle.cliffords.specs.Words.{codes_of, letters_most};

use products::PRODUCTS;
use words::{LETTERS, WORDS};

// The element that p played first, then q, comes to.
pub fn product(p: u8, q: u8) -> u8
    requires { (p < elements_most) × (q < elements_most) }
    ensures { result ≡ then p q }
{
    PRODUCTS[p as usize * 24 + q as usize]
}

// How many letters the element's word has.
pub fn letters_of(element: u8) -> u8
    requires { element < elements_most }
    ensures { (result ≡ length (codes_of element)) × (result ≤ letters_most) }
{
    LETTERS[element as usize]
}

// The codes of the element's word at the front of `out`, and how many they are; what stands after them is as it was.
pub fn put_word(element: u8, out: &mut [u8]) -> u8
    requires { (element < elements_most) × (letters_most ≤ length out.old) }
    ensures value { result ≡ length (codes_of element) }
    ensures out_after { out.new ≡ codes_of element ++ drop (length (codes_of element)) out.old }
{
    let codes = WORDS;
    let letters = letters_of(element);
    let at = element as usize * 6;
    let end = at + letters as usize;
    out[..letters as usize].copy_from_slice(&codes[at..end]);
    letters
}
