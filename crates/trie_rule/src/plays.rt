//! The rule of the table, and what each kind of step tells its seat. `cells` makes the steps.

use crate::views::View;
use atomic_table::{Join, Play, Split, TableRule};
use std::marker::{Brand, PhantomData};

/// The table's words and all views are a state of the trie machine. The key is the number of cells.
pub struct TrieRule;

impl TableRule<(), View, u32> for TrieRule {
    ghost use Rattle.trie_rule.specs.Rule.{Running, opening_view};

    ghost holds = { Running };

    ghost first = { opening_view };
}

/// What a call asks for, where a step's word and number don't say it: the key and value of a put, the key of a find.
pub trait Asks {
    ghost use Rattle.std.specs.Prelude.{ℕ, List, Option};

    ghost put_key: { List ℕ };

    ghost put_value: { List ℕ };

    ghost find_key: { Option (List ℕ) };
}

impl Asks for Brand {
    ghost use Rattle.std.specs.Prelude.{[], None};

    ghost put_key = { [] };

    ghost put_value = { [] };

    ghost find_key = { None };
}

/// The writer loads a word.
pub(crate) struct Looks;

impl Play<(), View> for Looks {
    ghost use Rattle.trie_rule.specs.Kinds.{LookShows};

    ghost then = { LookShows };
}

/// The writer makes the next store of a put.
pub(crate) struct Stores<A> {
    asks: PhantomData<A>,
}

impl<A: Asks> Play<(), View> for Stores<A> {
    ghost use Rattle.trie_rule.specs.Kinds.{StoreShows};

    ghost then = { StoreShows A.put_key A.put_value };
}

/// A reader loads word 0, and perhaps begins a find.
pub(crate) struct FrontLoads<A> {
    asks: PhantomData<A>,
}

impl<A: Asks> Play<(), View> for FrontLoads<A> {
    ghost use Rattle.trie_rule.specs.Kinds.{FrontShows};

    ghost then = { FrontShows A.find_key };
}

/// A reader loads any other word.
pub(crate) struct WordLoads;

impl Play<(), View> for WordLoads {
    ghost use Rattle.trie_rule.specs.Kinds.{LoadShows};

    ghost then = { LoadShows };
}

/// A read seat that knows what the writer has made, and one that knows what two read seats knew.
pub(crate) struct Shared;

impl Split<View> for Shared {
    ghost use Rattle.trie_rule.specs.Kinds.{told_view};

    ghost left = { λ v. v };

    ghost right = { told_view };
}

impl Join<View> for Shared {
    ghost use Rattle.trie_rule.specs.Kinds.{joined_view};
    ghost use Rattle.trie_rule.specs.declared.views.View.TheVariants.{Spent};

    ghost both = { joined_view };

    ghost spent = { Spent };
}
