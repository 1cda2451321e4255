//! Tags: short texts, held in place.

ghost use Rattle.std.specs.Prelude.{◌≡◌, Some, nat_eq, refl, true};
ghost use Rattle.std.specs.Ordering.{nat_cmp};
ghost use Rattle.std.specs.Cmp.{on_equiv, on_total, on_po, on_per, partial_equiv_from_equiv};
ghost use Rattle.std.specs.Cmp.Lexicographic.{pointwise, slice_cmp, nat_list_eq_equiv, nat_list_cmp_total, texts_po, texts_ties};
ghost use Rattle.std.specs.Cmp.Rules.{hashing};
ghost use Rattle.std.specs.Hash as fed;
ghost use Rattle.std.proofs.Common.{rules};
ghost use Rattle.std.specs.List.{list_all};
ghost use Rattle.kin_ids.specs.Texts as texts;

use std::cmp::Ordering;
use std::hash::{Hash, Hasher};
use std::marker::Model;

/// A tag of 1 to 24 bytes of `a` to `z`, `0` to `9` and `_`, seen as its bytes. Tags are ordered as texts.
#[derive(Clone, Copy, Debug)]
pub struct Tag {
    bytes: [u8; 24],
    len: u8,
}

impl Model for Tag {
    ghost use Rattle.std.specs.Prelude.{List, ℕ, take, length, ◌≤◌, ◌≡◌, ◌++◌, ◌-◌, replicate};

    ghost Value = { List ℕ };

    ghost use Rattle.kin_ids.specs.TagBytes.{HoldsTag, padded_back};

    ghost view = { λ a. take a.len a.bytes };

    ghost invariant = { λ a. HoldsTag a.bytes a.len };

    ghost inverse = { λ t. record { bytes = t ++ replicate (24 - length t) 0; len = length t } };

    ghost inverse_ok = { λ a h. padded_back a h.padded };
}

fn is_tag_byte(byte: u8) -> bool
    ensures { result ≡ texts.is_tag_byte byte }
{
    byte.is_ascii_lowercase() || byte.is_ascii_digit() || byte == b'_'
}

fn all_tag_bytes(text: &[u8]) -> bool
    ensures { result ≡ list_all texts.is_tag_byte text.now }
{
    text.iter().all(|b| is_tag_byte(*b))
}

fn has_tag_form(text: &[u8]) -> bool
    ensures { result ≡ texts.is_tag text.now }
{
    1 <= text.len() && text.len() <= 24 && all_tag_bytes(text)
}

impl Tag {
    /// The tag of this text: 1 to 24 characters of `a` to `z`, `0` to `9` and `_`. None for every other text.
    pub fn read(bytes: &[u8]) -> Option<Tag>
        ensures { result ≡ texts.tag_of bytes.now }
    {
        if has_tag_form(bytes) {
            Some(Tag::of(bytes))
        } else {
            None
        }
    }

    /// Its bytes, of the form of a tag. It takes no memory.
    pub fn bytes(&self) -> &[u8]
        ensures value { result.now ≡ self.now }
        ensures form { texts.is_tag self.now ≡ true }
    {
        &self.bytes[..usize::from(self.len)]
    }

    // The tag of a text of this form.
    fn of(text: &[u8]) -> Tag
        requires { texts.is_tag text.now ≡ true }
        ensures { result ≡ text.now }
    {
        let mut bytes = [0; 24];
        bytes[..text.len()].copy_from_slice(text);
        Tag {
            bytes,
            len: text.len() as u8,
        }
    }
}

impl PartialEq for Tag {
    ghost eq = { λ s t. pointwise nat_eq s t };

    ghost laws = { on_per (λ s. s) (partial_equiv_from_equiv nat_list_eq_equiv) };

    fn eq(&self, other: &Self) -> bool {
        self.bytes() == other.bytes()
    }
}

impl Eq for Tag {
    ghost laws = { on_equiv (λ s. s) nat_list_eq_equiv };
}

impl PartialOrd for Tag {
    ghost partial_cmp = { λ s t. Some (slice_cmp nat_cmp s t) };

    ghost laws = { on_po (λ s. s) texts_po };

    fn partial_cmp(&self, other: &Self) -> Option<Ordering> {
        Some(self.cmp(other))
    }
}

impl Ord for Tag {
    ghost cmp = { λ s t. slice_cmp nat_cmp s t };

    ghost total = { on_total (λ s. s) nat_list_cmp_total };

    ghost matches_partial_cmp = { λ s t. refl };

    ghost matches_eq = { λ s t. texts_ties s t };

    fn cmp(&self, other: &Self) -> Ordering {
        self.bytes().cmp(other.bytes())
    }
}

impl Hash for Tag {
    ghost hash_input = { λ s. fed.slice fed.u8 s };

    ghost respects_eq = { Prim.search (hashing, rules) };

    fn hash<H: Hasher>(&self, state: &mut H) {
        self.bytes().hash(state);
    }
}
