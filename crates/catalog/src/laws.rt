//! Laws of the text of a catalog.

ghost use Rattle.std.specs.Prelude.{◌≡◌, ℕ, List, All};
ghost use Rattle.catalog.specs.Catalog.{SpellsCatalog, HasBadLine, catalog_text};
ghost use Rattle.catalog.specs.Line.{IsLine};
ghost use Rattle.catalog.specs.declared.line.CatalogLine.{CatalogLine};

/// Two different lists of good lines have different texts. No line of such a text is bad, so
/// reading it returns no error but `OutOfMemory`.
///
/// The function does nothing: its contract is a law of the definitions.
pub fn one_catalog()
    ensures one { (bytes : List ℕ) (a b : List CatalogLine) → SpellsCatalog bytes a → SpellsCatalog bytes b → a ≡ b }
    ensures good { (lines : List CatalogLine) (n : ℕ) → All IsLine lines → HasBadLine (catalog_text lines) n → ⊥ }
{}
