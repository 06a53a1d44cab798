//! What the canonical block promises to its readers: theorems, with no code.

ghost use Rattle.std.specs.Prelude.{◌≡◌, ℕ, ◌≤◌, List, length, Result, None};
ghost use Rattle.std.specs.List.{AllByRecursion};
ghost use Rattle.osm_value.specs.declared.element.Element.{Element};
ghost use Rattle.osm_value.specs.Elements.{info_of_element};
ghost use Rattle.osm_block.specs.declared.fault.BlockError.{BlockError};
ghost use Rattle.osm_block.specs.Block.{Block};
ghost use Rattle.osm_block.specs.Phases.{Gives, fault};
ghost use Rattle.osm_write.specs.declared.block.TheConstants.{MAX_BLOCK_LEN};
ghost use Rattle.osm_write.specs.Canon.{canon};
ghost use Rattle.osm_write.specs.EarlierCanon as earlier;
ghost use Rattle.osm_write.specs.Laws.{ReadsBack, IsReadOnly, FewTexts, FirstIsNoLonger, IsGiven, SaysAlone, AnswersThem};

/// The canonical block of a list of elements says that list: for elements inside their ranges,
/// of fewer than 2^31 - 1 different texts, whose canonical block has fewer than 2^64 bytes.
pub fn canonical_block_is_read_back()
    ensures { (es : List Element) → ReadsBack es }
{}

/// What is read from the canonical block of a list is that list and no other.
pub fn canonical_block_says_one_list()
    ensures { (es : List Element) → IsReadOnly es }
{}

/// A list whose canonical block fits a raw payload uses few texts: each stands in the table with
/// two bytes or more.
pub fn block_that_fits_has_few_texts()
    ensures { (es : List Element) → length (canon es) ≤ MAX_BLOCK_LEN → FewTexts es }
{}

/// So does each list that is read from a raw payload.
pub fn list_that_is_read_has_few_texts()
    ensures { (es : List Element) (w : List ℕ) → Block es w → length w ≤ MAX_BLOCK_LEN → FewTexts es }
{}

/// The canonical block of a list is at least as long as that of its first element alone, for an
/// element inside its ranges. So where that one is too large for a file, the list's is, too.
pub fn first_element_is_no_longer()
    ensures { (e : Element) (es : List Element) → FirstIsNoLonger e es }
{}

/// What is written is read: the block that `encode_block` gives for a list has no fault, and says that
/// list and no other. So `read_block` answers the list to it, by its contract, or that memory was refused.
pub fn what_is_written_is_read()
    ensures says { (es : List Element) (block : List ℕ) → IsGiven es block → SaysAlone es block }
    ensures read { (es : List Element) (block : List ℕ) (answer : Result (List Element) BlockError) → IsGiven es block
        → Gives (λ fs. Block fs block) (fault block) answer → AnswersThem es answer }
{}

/// Elements without flags of visibility have the canonical block that they had before flags were written.
pub fn earlier_canonical_blocks_are_the_same()
    ensures { (es : List Element) → AllByRecursion (λ e. (info_of_element e).visible ≡ None) es → earlier.canon es ≡ canon es }
{}
