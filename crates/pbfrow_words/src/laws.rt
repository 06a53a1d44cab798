//! What the definition of an element's name implies: a theorem, with no code.

ghost use Rattle.std.specs.Prelude.{◌≡◌, ℕ, ℤ, List, Some};
ghost use Rattle.osm_value.specs.declared.element.MemberKind.{MemberKind};
ghost use Rattle.pbfrow_words.specs.Element.{Names, element_at};

/// An element is read from exactly the texts that name it.
pub fn element_is_read()
    ensures read { (text : List ℕ) (kind : MemberKind) (id : ℤ) → element_at text ≡ Some (kind, id) → Names kind id text }
    ensures named { (text : List ℕ) (kind : MemberKind) (id : ℤ) → Names kind id text → element_at text ≡ Some (kind, id) }
{}
