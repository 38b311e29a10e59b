//! Short texts of bounded length.

ghost use Rattle.std.specs.Prelude.{◌≡◌, ◌≤◌, ◌++◌, [], List, ℕ, length, drop, nat_eq};
ghost use Rattle.std.specs.Cmp.{on_equiv, on_per, partial_equiv_from_equiv};
ghost use Rattle.std.specs.Cmp.Lexicographic.{pointwise, nat_list_eq_equiv};
ghost use Rattle.std.specs.Cmp.Rules.{hashing};
ghost use Rattle.std.specs.Hash as fed;
ghost use Rattle.std.specs.Str.{bytes_eq};
ghost use Rattle.std.proofs.Common.{rules};

use std::hash::{Hash, Hasher};
use std::marker::Model;

/// A text of at most `N` bytes, `N` at most 255, stored inline and without allocation.
#[derive(Clone, Copy, Debug)]
pub struct Text<const N: usize> {
    /// The text, followed by zeros.
    bytes: [u8; N],
    len: u8,
}

impl<const N: usize> Model for Text<N> {
    ghost use Rattle.std.specs.Prelude.{◌≡◌, ◌≤◌, ◌-◌, ◌++◌, List};
    ghost use Rattle.std.specs.Prelude.{ℕ, length, take, drop, replicate};
    ghost use Rattle.std.proofs.Common.{arith, take-append-drop, length-take-le, sym, ap, ◌∙◌};

    ghost Value = { List ℕ };

    ghost view = { λ t. take t.len t.bytes };

    ghost invariant = { λ t. (t.len ≤ N) × (length t.bytes ≡ N)
        × (drop t.len t.bytes ≡ replicate (N - t.len) 0) };

    ghost inverse = { λ bytes.
        record { bytes = bytes ++ replicate (N - length bytes) 0; len = length bytes } };

    ghost inverse_ok = { λ t h i. record {
      bytes = (ap (λ n. take t.len t.bytes ++ replicate (N - n) 0)
          (length-take-le t.len t.bytes (omega (arith, h.0, h.1)))
          ∙ ap (λ (rest : List ℕ). take t.len t.bytes ++ rest)
          (sym h.2) ∙ take-append-drop t.len t.bytes) i;
      len = length-take-le t.len t.bytes (omega (arith, h.0, h.1)) i;
    } };
}

impl<const N: usize> PartialEq for Text<N> {
    ghost eq = { λ t u. pointwise nat_eq t u };

    ghost laws = { partial_equiv_from_equiv nat_list_eq_equiv };

    fn eq(&self, other: &Self) -> bool {
        self.as_bytes() == other.as_bytes()
    }
}

impl<const N: usize> Eq for Text<N> {
    ghost laws = { nat_list_eq_equiv };
}

impl<const N: usize> Hash for Text<N> {
    ghost hash_input = { λ t. fed.slice fed.u8 t };

    ghost respects_eq = { Prim.search (hashing, rules) };

    fn hash<H: Hasher>(&self, state: &mut H) {
        self.as_bytes().hash(state);
    }
}

impl<const N: usize> Default for Text<N> {
    ghost is_default = { λ t. t ≡ [] };

    fn default() -> Self {
        Text {
            bytes: [0; N],
            len: 0,
        }
    }
}

/// Copies bytes to the beginning of a longer slice.
#[inline(always)]
fn put_first(to: &mut [u8], bytes: &[u8])
    requires { length bytes.now ≤ length to.old }
    ensures { to.new ≡ bytes.now ++ drop (length bytes.now) to.old }
{
    let len = bytes.len();
    if len < 4 || len > 8 {
        to[..len].copy_from_slice(bytes);
    } else {
        // Two copies of a fixed length, which may overlap, cost less than one of any length.
        to[..4].copy_from_slice(&bytes[..4]);
        to[len - 4..len].copy_from_slice(&bytes[len - 4..]);
    }
}

impl<const N: usize> Text<N> {
    /// The text of these bytes, at most `N`.
    pub fn new(bytes: &[u8]) -> Self
        requires fits { length bytes.now ≤ N }
        requires short { N ≤ 255 }
        ensures { result ≡ bytes.now }
    {
        let mut text = [0; N];
        put_first(&mut text, bytes);
        Text {
            bytes: text,
            len: bytes.len() as u8,
        }
    }

    /// Whether both texts are equal. Compares all `N` bytes, since the bytes after equal texts are
    /// equal zeros, so that the comparison has a fixed length.
    #[inline]
    pub fn is(&self, other: &Self) -> bool
        ensures { result ≡ bytes_eq self.now other.now }
    {
        self.len == other.len && self.bytes == other.bytes
    }

    /// The bytes.
    pub fn as_bytes(&self) -> &[u8]
        ensures value { result.now ≡ self.now }
        ensures fits { length result.now ≤ N }
    {
        &self.bytes[..self.len as usize]
    }
}
