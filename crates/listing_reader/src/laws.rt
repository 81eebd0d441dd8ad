//! Laws of listings: what a listing's text is read as, and when two listings are the same.
ghost use Rattle.std.specs.Prelude.{◌≡◌, ◌≢◌, ◌<◌, ◌^◌, ℕ, suc, List, length, drop, map};
ghost use Rattle.library_model.specs.declared.calls.Call.{Call};
ghost use Rattle.listing.specs.HistoryListing.{listing};
ghost use Rattle.text_lines.specs.Lines.{lines_of};
ghost use Rattle.listing_reader.specs.FirstBad.{IsFirstBad, shared_lines};
ghost use Rattle.listing_reader.specs.Lines.{calls_of};
ghost use Rattle.listing_reader.specs.Listed.{AreCalls, AreDifferent, shown};

/// Listings differ where what they show does: the same text is the listing of the same calls, but for the bytes of
/// sources that a reply holds, of which a listing has the number alone.
pub fn listings_differ()
    ensures { (names : List (List ℕ)) (calls others : List Call) → AreDifferent names → AreCalls names calls → AreCalls names others → length calls < 2 ^ 64 → length others < 2 ^ 64 → listing names calls ≡ listing names others → map shown calls ≡ map shown others }
{}

/// What the lines of a listing are read as shows what the calls do.
pub fn listing_is_read()
    ensures { (names : List (List ℕ)) (calls : List Call) → AreDifferent names → AreCalls names calls → length calls < 2 ^ 64 → calls_of names (drop 1 (lines_of (listing names calls))) ≡ map shown calls }
{}

/// What is shown of calls has the same listing.
pub fn shown_is_listed()
    ensures { (names : List (List ℕ)) (calls : List Call) → listing names (map shown calls) ≡ listing names calls }
{}

/// Bytes are a listing of calls that can be listed only where they are the listing of what their lines are read as.
pub fn listing_is_known()
    ensures { (names : List (List ℕ)) (calls : List Call) (bytes : List ℕ) → AreDifferent names → AreCalls names calls → length bytes < 2 ^ 64 → listing names calls ≡ bytes → listing names (calls_of names (drop 1 (lines_of bytes))) ≡ bytes }
{}

/// Where they aren't, the line in which the two first differ is the first that no listing has there.
pub fn first_bad_line()
    ensures { (names : List (List ℕ)) (bytes : List ℕ) → AreDifferent names → length bytes < 2 ^ 64 → listing names (calls_of names (drop 1 (lines_of bytes))) ≢ bytes → IsFirstBad names bytes (suc (shared_lines (listing names (calls_of names (drop 1 (lines_of bytes)))) bytes)) }
{}
