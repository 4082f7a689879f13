//! The name of a page. The cache finds its pages by it; only the page's number is hashed, since a cache serves few
//! files.
use outside::FileId;
use std::hash::{Hash, Hasher};

/// A page of a file, by its number: page n begins at byte 4,096 n.
#[derive(Clone, Copy, Debug)]
pub struct PageKey {
    pub file: FileId,
    pub number: u64,
}

impl PartialEq for PageKey {
    ghost use Rattle.std.specs.Cmp.{partial_equiv_from_equiv};
    ghost use Rattle.page_cache.specs.Key.{same_page, same_page_equiv};

    ghost eq = { same_page };

    ghost laws = { partial_equiv_from_equiv same_page_equiv };

    fn eq(&self, other: &PageKey) -> bool {
        self.file == other.file && self.number == other.number
    }
}

impl Eq for PageKey {
    ghost use Rattle.page_cache.specs.Key.{same_page_equiv};

    ghost laws = { same_page_equiv };
}

impl Hash for PageKey {
    ghost use Rattle.std.specs.Hash as fed;
    ghost use Rattle.page_cache.specs.Key.{same_hash};

    ghost hash_input = { λ k. fed.u64 k.number };

    ghost respects_eq = { same_hash };

    fn hash<H: Hasher>(&self, state: &mut H) {
        self.number.hash(state);
    }
}
