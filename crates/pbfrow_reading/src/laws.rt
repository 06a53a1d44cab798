//! What the definitions imply: a theorem, with no code.

ghost use Rattle.std.specs.Prelude.{◌≡◌, Bool, ℕ, List};
ghost use Rattle.pbfrow_reading.specs.Listing.{Lists};
ghost use Rattle.pbfrow_reading.specs.Reading.{listing};

/// Bytes have exactly one listing, and it is the one that is read frame after frame.
pub fn listing_is_read()
    ensures read { (bytes : List ℕ) → Lists (listing bytes).whole bytes (listing bytes).text }
    ensures one { (whole other : Bool) (bytes text text' : List ℕ) → Lists whole bytes text → Lists other bytes text' → (whole ≡ other) × (text ≡ text') }
{}
