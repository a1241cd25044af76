// The words of a null mask: what a strategy takes up, its step, over a column list.
#![tactic(auto)]

mod steps;
pub mod taking;
pub mod words;

use std::marker::Model;

// The fields that a strategy takes up: all, those with a null, or those that are not fully null.
#[derive(Clone, Copy, Debug, PartialEq, Eq)]
pub enum Taken {
    All,
    WithNulls,
    NotFull,
}

// The places of those fields in the column list, in order: the first `count` entries. By the invariant the others are zeros.
// An array, since there is no heap.
#[derive(Clone, Copy)]
pub struct TakenFields {
    places: [u8; 128],
    count: usize,
}

impl Model for TakenFields {
    ghost use Rattle.std.specs.Prelude.{◌≡◌, List, ℕ, ◌≤◌, take, length};
    ghost use Rattle.std.proofs.Common.{sym, subst, length-take-le};
    ghost use Rattle.mask_words.specs.Steps.{padded};

    ghost Value = { List ℕ };

    ghost view = { λ t. take t.count t.places };

    ghost invariant = { λ t. (t.count ≤ 128) × (length t.places ≡ 128) × (t.places ≡ padded (take t.count t.places)) };

    ghost inverse = { λ l. record { places = padded l; count = length l } };

    ghost inverse_ok = { λ t h i. record {
      places = sym h.2 i;
      count = length-take-le t.count t.places (subst (λ (n : ℕ). t.count ≤ n) (sym h.1) h.0) i;
    } };
}

// A field's id, and a presence chunk of its child.
#[derive(Clone, Copy)]
pub(crate) struct FieldChunk {
    id: i8,
    chunk: u64,
}

// Of a run of slots: a word of those that some fields have, and one of those of them that are present.
#[derive(Clone, Copy)]
pub(crate) struct Selection {
    selected: u64,
    present: u64,
}
